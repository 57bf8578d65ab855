//! What holds of guarantees: each function's contract is a law, and its body does nothing.

ghost use Rattle.std.specs.Prelude.{
  ◌≡◌,
  ℕ,
  ◌+◌,
  ◌^◌,
  ◌≤◌,
  ◌<◌,
  ◌↔◌,
  ◌++◌,
  Bool,
  List,
  length,
  true,
};
ghost use Rattle.hls_chron.specs.Ticks.{count};
ghost use Rattle.hls_guarantee.specs.Service.{schedule_of, ServesMore};
ghost use Rattle.hls_guarantee.specs.Satisfaction.{Satisfies, ListSatisfies, IsReserved, IsSoft};
ghost use Rattle.hls_guarantee.specs.Pieces.{IsPiece};
ghost use Rattle.hls_guarantee.specs.Cap.{KeepsCap, ListKeepsCap};
ghost use Rattle.hls_guarantee.specs.Supply.{Supplies};
ghost use Rattle.hls_guarantee.specs.Limits.{IsReservation, IsValid, IsNarrow};
ghost use Rattle.hls_guarantee.specs.Spelling.{spelling};

use crate::Guarantee;
use hls_frac::Frac;

/// What is promised and capped of some ticks is promised and capped of each part of them.
pub fn parts_satisfy(g: Guarantee)
    ensures ticks { (served : ℕ → Bool) (lo hi i j : ℕ) → lo ≤ i → j ≤ hi →
        Satisfies g served lo hi → Satisfies g served i j }
    ensures cap { (served : ℕ → Bool) (lo hi i j : ℕ) → lo ≤ i → j ≤ hi →
        KeepsCap g served lo hi → KeepsCap g served i j }
    ensures list { (before part after : List Bool) → ListSatisfies g (before ++ (part ++ after)) →
        ListSatisfies g part }
    ensures list_cap { (before part after : List Bool) → ListKeepsCap g (before ++ (part ++ after)) →
        ListKeepsCap g part }
{}

/// Supply speaks only of the ticks of its range: it goes over to a later start, and to a schedule and an
/// asking that agree from there on.
pub fn supply_goes_over(g: Guarantee)
    ensures { (served given asks wants : ℕ → Bool) (lo hi from : ℕ) → lo ≤ from →
        ((t : ℕ) → from ≤ t → t < hi → served t ≡ given t) →
        ((t : ℕ) → from ≤ t → t < hi → asks t ≡ wants t) →
        Supplies g served asks lo hi → Supplies g given wants from hi }
{}

/// A soft guarantee is satisfied also where more ticks are served.
pub fn more_service_satisfies(g: Guarantee)
    requires { IsSoft g }
    ensures ticks { (less more : ℕ → Bool) (lo hi : ℕ) → ((t : ℕ) → less t ≡ true → more t ≡ true) →
        Satisfies g less lo hi → Satisfies g more lo hi }
    ensures list { (less more : List Bool) → ServesMore less more → ListSatisfies g less →
        ListSatisfies g more }
{}

/// `ALL` is satisfied exactly where every tick is served.
pub fn all_serves_throughout()
    ensures { (list : List Bool) → ListSatisfies Guarantee.All list ↔
        ((t : ℕ) → t < length list → schedule_of list t ≡ true) }
{}

/// `NULL` is satisfied by every list.
pub fn null_promises_nothing()
    ensures { (list : List Bool) → ListSatisfies Guarantee.Null list }
{}

/// A list of the ticks of a schedule from some tick on satisfies and caps what these ticks satisfy and cap.
pub fn windows_are_lists(g: Guarantee)
    ensures satisfied { (list : List Bool) (served : ℕ → Bool) (lo : ℕ) →
        ((t : ℕ) → t < length list → schedule_of list t ≡ served (t + lo)) →
        ListSatisfies g list ↔ Satisfies g served lo (lo + length list) }
    ensures capped { (list : List Bool) (served : ℕ → Bool) (lo : ℕ) →
        ((t : ℕ) → t < length list → schedule_of list t ≡ served (t + lo)) →
        ListKeepsCap g list ↔ KeepsCap g served lo (lo + length list) }
{}

/// A guarantee by blocks is satisfied exactly where at some offset each whole piece of the list is reserved.
pub fn blocks_are_pieces(hard: bool, x: u32, y: u32)
    requires { IsReservation x y }
    ensures { (list : List Bool) → ListSatisfies (Guarantee.Resb hard x y) list ↔
        ((e : ℕ) × (e < y) ×
        ((k i n : ℕ) → IsPiece e y (length list) k i n →
        IsReserved hard x y n (count (schedule_of list) i n))) }
{}

/// A reservation of either kind has `1 <= x <= y <= 20000`.
pub fn limits_of_reservations(hard: bool, x: u32, y: u32)
    ensures blocks { IsValid (Guarantee.Resb hard x y) ↔ ((1 ≤ x) × (x ≤ y) × (y ≤ 20000)) }
    ensures windows { IsValid (Guarantee.Resc hard x y) ↔ ((1 ≤ x) × (x ≤ y) × (y ≤ 20000)) }
    ensures narrow_blocks { IsNarrow (Guarantee.Resb hard x y) ↔ IsValid (Guarantee.Resb hard x y) }
    ensures narrow_windows { IsNarrow (Guarantee.Resc hard x y) ↔ IsValid (Guarantee.Resc hard x y) }
{}

/// A share has `0 < s <= 1`, and numerators of at most 10^13 and denominators of at most 10^8; a narrow one
/// has numerators of at most 10^10 and denominators of at most 10^6.
pub fn limits_of_shares(s: Frac, d: Frac)
    ensures wide { IsValid (Guarantee.Psbe s d) ↔
        ((1 ≤ s.num) × (s.num ≤ s.den) × (s.num ≤ 10 ^ 13) × (s.den ≤ 10 ^ 8) × (d.num ≤ 10 ^ 13) ×
        (d.den ≤ 10 ^ 8)) }
    ensures narrow { IsNarrow (Guarantee.Psbe s d) ↔
        ((1 ≤ s.num) × (s.num ≤ s.den) × (s.num ≤ 10 ^ 10) × (s.den ≤ 10 ^ 6) × (d.num ≤ 10 ^ 10) ×
        (d.den ≤ 10 ^ 6)) }
{}

/// What is narrow is valid.
pub fn narrow_is_valid(g: Guarantee)
    ensures { IsNarrow g → IsValid g }
{}

/// No two valid guarantees have one text.
pub fn spelling_is_injective(g: Guarantee, h: Guarantee)
    requires g { IsValid g }
    requires h { IsValid h }
    ensures { spelling g ≡ spelling h → g ≡ h }
{}
