//! Vectors and matrices with exact entries: dot products, sums, scaling, and the laws that bounds on linear forms need.
//!
//! Vectors are lists and matrices lists of rows, over any commutative ring of `exact_math`.
#![tactic(auto)]

ghost use Rattle.std.specs.List.{All, AllZip};
ghost use Rattle.std.specs.Prelude.{◌≡◌, ℕ, ◌+◌, ◌*◌, ◌<◌, ◌≤◌, ℤ, pos, ◌≤ℤ◌, ◌<ℤ◌, nat_abs, List, [], ◌++◌, length, get_or, set, drop};
ghost use Rattle.exact_math.specs.Determinants.{difference};
ghost use Rattle.exact_math.specs.Ring.{Ring, integers};
ghost use Rattle.exact_math.specs.Rational.{ℚ, whole, ◌≤ℚ◌, ◌<ℚ◌};
ghost use Rattle.exact_math.specs.RationalRing.{rationals};
ghost use Rattle.exact_vectors.specs.Inequalities.{AtMost, NotNegative, NotNegativeBy};
ghost use Rattle.exact_vectors.specs.Matrices.{HasWidth, column, combination, rows_of, times_matrix, times_vector, transpose};
ghost use Rattle.exact_vectors.specs.Vectors.{add, dot, scale, sum_below, zeros};

mod checked;

pub use checked::{add_product, dot_checked};

/// The laws of dot products over any commutative ring. It does nothing: its contract carries them.
pub fn dot_product_laws<T>()
    ensures symmetric { (r : Ring T) (v w : List T) → dot r v w ≡ dot r w v }
    ensures added { (r : Ring T) (u v w : List T) → length u ≡ length v → dot r (add r u v) w ≡ r.add (dot r u w) (dot r v w) }
    ensures scaled { (r : Ring T) (k : T) (v w : List T) → dot r (scale r k v) w ≡ r.mul k (dot r v w) }
    ensures joined { (r : Ring T) (u v x y : List T) → length u ≡ length x → dot r (u ++ v) (x ++ y) ≡ r.add (dot r u x) (dot r v y) }
    ensures one_item { (r : Ring T) (v w : List T) (i : ℕ) (b d : T) → i < length v → dot r (set v i b) w ≡ r.add (dot r v w) (r.mul (difference r b (get_or v i d)) (get_or w i (r.literal (pos 0)))) }
    ensures suffix { (r : Ring T) (v w : List T) (i : ℕ) (d e : T) → i < length v → i < length w → dot r (drop i v) (drop i w) ≡ r.add (r.mul (get_or v i d) (get_or w i e)) (dot r (drop (i + 1) v) (drop (i + 1) w)) }
    ensures by_index { (r : Ring T) (v w : List T) (n : ℕ) → length v ≤ n → dot r v w ≡ sum_below r n (λ i. r.mul (get_or v i (r.literal (pos 0))) (get_or w i (r.literal (pos 0)))) }
{}

/// The laws of products of matrices, given by their rows, over any commutative ring, and of matrices in one list in row order. It does nothing.
pub fn matrix_laws<T>()
    ensures transposed { (r : Ring T) (n : ℕ) (y : List T) (rows : List (List T)) (x : List T) → HasWidth n rows → dot r y (times_vector r rows x) ≡ dot r (combination r n y rows) x }
    ensures by_column { (r : Ring T) (n : ℕ) (y : List T) (rows : List (List T)) (j : ℕ) → HasWidth n rows → get_or (combination r n y rows) j (r.literal (pos 0)) ≡ dot r y (column r rows j) }
    ensures by_transpose { (r : Ring T) (n : ℕ) (rows : List (List T)) (y : List T) → HasWidth n rows → length y ≡ length rows → times_vector r (transpose n rows) y ≡ combination r n y rows }
    ensures composed { (r : Ring T) (n : ℕ) (left right : List (List T)) (x : List T) → HasWidth n right → times_vector r (times_matrix r n left right) x ≡ times_vector r left (times_vector r right x) }
    ensures flat_item { (n m : ℕ) (flat : List T) (i j : ℕ) (d : T) → i < m → j < n → get_or (get_or (rows_of n m flat) i []) j d ≡ get_or flat (i * n + j) d }
    ensures flat_set { (n m : ℕ) (flat : List T) (i j : ℕ) (b : T) → i < m → j < n → rows_of n m (set flat (i * n + j) b) ≡ set (rows_of n m flat) i (set (get_or (rows_of n m flat) i []) j b) }
{}

/// Combinations of inequalities over the whole numbers: weak duality, and the easy half of Farkas' lemma, which stands
/// for the rational numbers too. It does nothing.
pub fn inequality_laws()
    ensures combined { (n : ℕ) (m : List ℤ) (rows : List (List ℤ)) (x b : List ℤ) → HasWidth n rows → NotNegative m → AtMost (times_vector integers rows x) b → dot integers (combination integers n m rows) x ≤ℤ dot integers m b }
    ensures weak_duality { (n : ℕ) (y : List ℤ) (rows : List (List ℤ)) (x b c : List ℤ) → HasWidth n rows → NotNegative y → NotNegative x → AtMost (times_vector integers rows x) b → AtMost c (combination integers n y rows) → dot integers c x ≤ℤ dot integers y b }
    ensures farkas { (n : ℕ) (m : List ℤ) (rows : List (List ℤ)) (x b : List ℤ) → HasWidth n rows → NotNegative m → combination integers n m rows ≡ zeros integers n → dot integers m b <ℤ pos 0 → ¬ (AtMost (times_vector integers rows x) b) }
    ensures rational_farkas { (n : ℕ) (m : List ℚ) (rows : List (List ℚ)) (x b : List ℚ) → HasWidth n rows → NotNegativeBy rationals ◌≤ℚ◌ m → combination rationals n m rows ≡ zeros rationals n → dot rationals m b <ℚ whole (pos 0) → ¬ (AllZip ◌≤ℚ◌ (times_vector rationals rows x) b) }
    ensures bounded { (v w : List ℤ) (p q : ℕ) → All (λ a. nat_abs a ≤ p) v → All (λ x. nat_abs x ≤ q) w → nat_abs (dot integers v w) ≤ length v * (p * q) }
{}
