//! The order of the sections.
ghost use Rattle.std.specs.Prelude.{◌≡◌, true, false, List, [], ◌∷◌, ◌++◌, None, MatchOption};
ghost use Rattle.std.specs.List.{list_any, last_or};
ghost use Rattle.mps_model.specs.declared.lines.section.Section.{Section as TheSection};
ghost use Rattle.mps_model.specs.SectionOrder.{may_come as may_come_behind, is_same, is_in_order};
ghost use Rattle.mps_model.specs.KeptSectionOrder.{KeepsOrder};

use crate::lines::section::Section;

/// The last section that came, if there is one, and which of RANGES and BOUNDS came, whose order is free.
#[derive(Clone, Copy, Debug)]
pub(crate) struct Order {
    pub(crate) last: Option<Section>,
    pub(crate) has_ranges: bool,
    pub(crate) has_bounds: bool,
}

// Whether a section may stand behind the last one, or first.
fn may_come(last: Option<Section>, section: Section) -> bool
    ensures { result ≡ may_come_behind last section }
{
    match last {
        None => matches!(section, Section::Name | Section::Rows),
        Some(Section::Name) => matches!(section, Section::Rows),
        Some(Section::Rows) => matches!(section, Section::Columns),
        Some(Section::Columns) => matches!(
            section,
            Section::Rhs | Section::Ranges | Section::Bounds | Section::Endata
        ),
        Some(Section::Rhs) => matches!(
            section,
            Section::Ranges | Section::Bounds | Section::Endata
        ),
        Some(Section::Ranges) => matches!(section, Section::Bounds | Section::Endata),
        Some(Section::Bounds) => matches!(section, Section::Ranges | Section::Endata),
        Some(Section::Endata) => false,
    }
}

impl Order {
    /// No section came.
    pub(crate) fn new() -> Order
        ensures { KeepsOrder [] result }
    {
        Order {
            last: None,
            has_ranges: false,
            has_bounds: false,
        }
    }

    // Whether a section came, where it may stand behind the last one.
    #[tactic(auto, using(crate::proofs::OnLines::SectionOrderLaws::fresh, crate::proofs::OnLines::SectionOrderLaws::differ))]
    fn has(self, section: Section) -> bool
        ensures { (above : List TheSection) → KeepsOrder above self → may_come_behind (last_or None above) section ≡ true
            → result ≡ list_any (is_same section) above }
    {
        match section {
            Section::Ranges => self.has_ranges,
            Section::Bounds => self.has_bounds,
            _ => false,
        }
    }

    // The order behind one more section.
    fn with(self, section: Section) -> Order
        ensures { (above : List TheSection) → KeepsOrder above self → is_in_order above section ≡ true → KeepsOrder (above ++ section ∷ []) result }
    {
        let last = Some(section);
        match section {
            Section::Ranges => Order {
                last,
                has_ranges: true,
                ..self
            },
            Section::Bounds => Order {
                last,
                has_bounds: true,
                ..self
            },
            _ => Order { last, ..self },
        }
    }

    /// The order behind one more section. None exactly where that section is out of order.
    pub(crate) fn next(self, section: Section) -> Option<Order>
        ensures { (above : List TheSection) → KeepsOrder above self
            → MatchOption result (is_in_order above section ≡ false)
            (λ next. (is_in_order above section ≡ true) × KeepsOrder (above ++ section ∷ []) next) }
    {
        if !may_come(self.last, section) || self.has(section) {
            return None;
        }
        Some(self.with(section))
    }
}
