//! Forms on the coordinates of a frame as forms over all columns.
ghost use Rattle.std.specs.Prelude.{◌≡◌, ◌<◌, ◌≤◌, ◌^◌, pos, length, IfErr, IfOk, OnOk, SomeIff};
ghost use Rattle.exact_math.specs.Ring.{integers};
ghost use Rattle.exact_vectors.specs.Matrices.{column};
ghost use Rattle.exact_vectors.specs.Range.{StaysInRange};
ghost use Rattle.exact_vectors.specs.Vectors.{dot};
ghost use Rattle.presolve_map.specs.Columns.{IsColumnMap};
ghost use Rattle.reformulate.specs.Substitutions.{IsShaped, columns_of, dimension_of};
ghost use Rattle.spaces.specs.Maps.{ProductStays};
ghost use Rattle.spaces.specs.Stops.{StopsUnless};
ghost use Rattle.spaces.specs.Tables.{rows_in};
ghost use Rattle.whole_rows.specs.WholeRows.{span};
ghost use Rattle.farkas_lift.specs.NodeEqualities.{work_form};
ghost use Rattle.node_regions.specs.NodeFrames.{IsKeptForm};
ghost use Rattle.node_regions.specs.NodeRegions.{node_polytope};
ghost use Rattle.exact_nodes.specs.ExactMoves.{HaltsSo, IsNodeOf};
ghost use Rattle.exact_nodes.specs.NodeExcuses.{FormStays, IsChosenDirection, IsModelForm, back_form};

use crate::excuse::Excuse;
use crate::halt::Halt;
use exact_vectors::add_product;
use node_lines::Node;
use presolve_map::lift_form;
use reformulate::Frame;
use sequence::NoMemory;
use spaces::{Affine, Form, Grid, Kernel, MapStop, Original, Space, WideEntry, Work};
use std::alloc::Global;
use whole_rows::span_of;

/// A form over all columns that has the values of one on the coordinates of a frame, and what it is more than that.
#[derive(Drop)]
pub(crate) struct ModelForm {
    pub(crate) form: Form<Original>,
    pub(crate) constant: i128,
}

/// The same form once more.
pub(crate) fn copied<S: Space>(alloc: Global, form: &Form<S>) -> Result<Form<S>, NoMemory>
    ensures { IfOk result (λ copy. copy ≡ form.now) }
{
    Ok(Form::of(form.items().to_vec(alloc)?))
}

/// The sum of each factor times the item in its place in a column, taken in index order.
///
/// `None` comes exactly where a product or a partial sum leaves `i128`.
fn column_sum(factors: &[i128], lines: &Grid<Work, i128>, place: usize) -> Option<i128>
    requires size { length factors.now ≡ lines.now.rows }
    requires place_there { place < lines.now.width }
    ensures { SomeIff result (StaysInRange (pos 0) factors.now (column integers (rows_in lines.now) place)) (dot integers factors.now (column integers (rows_in lines.now) place)) }
{
    let mut sum = 0;
    for k in 0..factors.len() {
        sum = add_product(sum, factors[k], lines.row(k)[place])?;
    }
    Some(sum)
}

/// d V, the form over the work columns.
///
/// `Wide` comes exactly where a product, or a sum of products in index order, leaves `i128`.
fn form_back(alloc: Global, frame: &Frame, form: &Form<Kernel>) -> Result<Form<Work>, MapStop>
    requires { length form.now ≡ dimension_of frame.now }
    ensures value { IfOk result (λ back. back ≡ back_form frame.now form.now) }
    ensures columns { IfOk result (λ back. length back ≡ columns_of frame.now) }
    ensures in_range { OnOk result (ProductStays form.now frame.now.back) }
    ensures stop { IfErr result (StopsUnless (ProductStays form.now frame.now.back)) }
    ensures shaped { IsShaped frame.now }
{
    let back = frame.back();
    let mut items = Vec::with_capacity(alloc, back.width())?;
    for j in 0..back.width() {
        let Some(item) = column_sum(form.items(), back, j) else {
            return Err(MapStop::Wide);
        };
        items.push(item)?;
    }
    Ok(Form::of(items))
}

/// d V, and its value at x0.
#[derive(Drop)]
struct WorkForm {
    form: Form<Work>,
    constant: i128,
}

/// d V, and its value at x0.
///
/// `Wide` comes exactly where a product, or a sum of products in index order, leaves `i128`.
fn over_work(alloc: Global, frame: &Frame, form: &Form<Kernel>) -> Result<WorkForm, MapStop>
    requires { length form.now ≡ dimension_of frame.now }
    ensures form { IfOk result (λ work. work.form ≡ back_form frame.now form.now) }
    ensures columns { IfOk result (λ work. length work.form ≡ columns_of frame.now) }
    ensures constant { IfOk result (λ work. work.constant ≡ dot integers (back_form frame.now form.now) frame.now.to_work.base) }
    ensures stop { IfErr result (StopsUnless (FormStays frame.now form.now)) }
{
    let back = form_back(alloc, frame, form)?;
    match back.at(frame.to_work().base()) {
        Ok(constant) => Ok(WorkForm {
            form: back,
            constant,
        }),
        Err(WideEntry) => Err(MapStop::Wide),
    }
}

/// The form over all columns with the factors of one over the work columns, 0 in the others.
fn over_all<'a>(
    alloc: Global,
    node: &Node<'a>,
    map: &Affine<Work, Original>,
    form: &Form<Work>,
) -> Result<Form<Original>, NoMemory>
    requires node { IsNodeOf node.now.model.now node.now.work.now node.now.frame.now node.now.path.now }
    requires map { IsColumnMap node.now.model.now.box map.now }
    requires columns { length form.now ≡ length node.now.work.now.rows.box }
    ensures kept { IfOk result (IsKeptForm node.now.model.now.box) }
    ensures same { IfOk result (λ lifted. work_form node.now.work.now lifted ≡ form.now) }
    ensures dense { IfOk result (λ lifted. length lifted ≡ length node.now.model.now.box) }
{
    let lifted = lift_form(alloc, map, form)?;
    Ok(lifted)
}

/// The form over the work columns of a direction of the node.
fn direction_over_work<'a>(
    alloc: Global,
    node: &Node<'a>,
    form: &Form<Kernel>,
) -> Result<WorkForm, Halt>
    requires chosen { IsChosenDirection (node_polytope node.now.frame.now node.now.work.now node.now.cut) (rows_in node.now.frame.now.to_work.lines) form.now }
    ensures form { IfOk result (λ work. work.form ≡ back_form node.now.frame.now form.now) }
    ensures columns { IfOk result (λ work. length work.form ≡ columns_of node.now.frame.now) }
    ensures constant { IfOk result (λ work. work.constant ≡ dot integers (back_form node.now.frame.now form.now) node.now.frame.now.to_work.base) }
    ensures halt { IfErr result (HaltsSo node.now.model.now node.now.work.now node.now.frame.now node.now.path.now node.now.cut) }
{
    match over_work(alloc, node.frame, form) {
        Ok(work) => Ok(work),
        Err(MapStop::Wide) => {
            let copy = copied(alloc, form)?;
            Err(Halt::Excused(Excuse::WideMap(copy)))
        }
        Err(MapStop::NoMemory) => Err(Halt::NoMemory),
    }
}

/// The form over all columns that has the values of a direction of the node.
pub(crate) fn model_form<'a>(
    alloc: Global,
    node: &Node<'a>,
    map: &Affine<Work, Original>,
    form: &Form<Kernel>,
) -> Result<ModelForm, Halt>
    requires node { IsNodeOf node.now.model.now node.now.work.now node.now.frame.now node.now.path.now }
    requires map { IsColumnMap node.now.model.now.box map.now }
    requires chosen { IsChosenDirection (node_polytope node.now.frame.now node.now.work.now node.now.cut) (rows_in node.now.frame.now.to_work.lines) form.now }
    ensures form { IfOk result (λ moved. IsModelForm node.now.model.now node.now.work.now node.now.frame.now form.now moved.form) }
    ensures constant { IfOk result (λ moved. moved.constant ≡ dot integers (back_form node.now.frame.now form.now) node.now.frame.now.to_work.base) }
    ensures light { IfOk result (λ moved. span moved.form node.now.model.now.box ≤ 2 ^ 96) }
    ensures halt { IfErr result (HaltsSo node.now.model.now node.now.work.now node.now.frame.now node.now.path.now node.now.cut) }
{
    let work = direction_over_work(alloc, node, form)?;
    let lifted = over_all(alloc, node, map, &work.form)?;
    if span_of(lifted.items(), node.model.bounds()).is_none() {
        return Err(Halt::Excused(Excuse::HeavyForm(lifted)));
    }
    Ok(ModelForm {
        form: lifted,
        constant: work.constant,
    })
}
