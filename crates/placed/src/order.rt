// The table's order on groups: by number of items first, and at equal numbers by the signs at the lowest place at which the
// two differ. specs/Laws.antt states it in the words of the spelled items, and specs/Order.antt has it as a function, as std's
// traits ask: proofs/Own.antt shows that this function orders so over any frame.
ghost use Rattle.std.specs.Prelude.{◌≡◌, ◌<◌, length, IsSomeAnd, refl};
ghost use Rattle.std.specs.Cmp.{partial_order_from_agreeing_total};
ghost use Rattle.std.specs.Ordering.{MatchOrdering, as_partial_cmp};
ghost use Rattle.placed.specs.Laws.{CountsOver, DiffersFirst, EarlierOver, OrdersOver};
ghost use Rattle.placed.specs.Order.{own_items, order, order_total, order_ties};
ghost use Rattle.placed.specs.Signs.{rank_if};

use super::Placed;
use groups::items::Sign;
use std::cmp::Ordering;

// By hand: a derive would compare the bits of the sets.
impl PartialOrd for Placed {
    ghost partial_cmp = { as_partial_cmp order };

    ghost laws = { partial_order_from_agreeing_total order order_total (λ g h. refl) order_ties };

    fn partial_cmp(&self, other: &Placed) -> Option<Ordering>
        ensures answer { result ≡ as_partial_cmp order self.now other.now }
        ensures over { IsSomeAnd result (OrdersOver self.now other.now) }
    {
        Some(self.cmp(other))
    }
}

impl Ord for Placed {
    ghost cmp = { order };

    ghost total = { order_total };

    ghost matches_partial_cmp = { λ g h. refl };

    ghost matches_eq = { order_ties };

    fn cmp(&self, other: &Placed) -> Ordering
        ensures answer { result ≡ order self.now other.now }
        ensures over { OrdersOver self.now other.now result }
    {
        self.number()
            .cmp(&other.number())
            .then_with(|| self.order_by_signs(*other))
    }
}

impl Placed {
    // How many items the group has.
    fn number(self) -> u32
        ensures own { result ≡ length (own_items self) }
        ensures over { CountsOver self result }
    {
        self.up.union(self.down).count()
    }

    // Which of two groups of equal number comes first.
    fn order_by_signs(self, other: Placed) -> Ordering
        ensures answer { length (own_items self) ≡ length (own_items other) → result ≡ order self other }
        ensures over { EarlierOver self other result }
    {
        match self.first_difference(other) {
            None => Ordering::Equal,
            Some(place) => order_of_signs(self.sign(place), other.sign(place)),
        }
    }

    // The lowest place at which two groups have other signs, if there is one.
    fn first_difference(self, other: Placed) -> Option<usize>
        ensures { DiffersFirst self other result }
    {
        let upper = self.up.difference(other.up);
        let lower = self.down.difference(other.down);
        upper.union(lower).first()
    }
}

// Which of two signs comes first, by their ranks: with a `match` on both signs, which was tried, a table took more time.
fn order_of_signs(sign: Option<Sign>, other: Option<Sign>) -> Ordering
    ensures { MatchOrdering result (rank_if sign < rank_if other) (sign ≡ other) (rank_if other < rank_if sign) }
{
    rank(sign).cmp(&rank(other))
}

// The rank of a sign: + before - before *, and a sign before none, where the order of `Option` has none first.
fn rank(sign: Option<Sign>) -> u8
    ensures { result ≡ rank_if sign }
{
    match sign {
        Some(sign) => sign as u8,
        None => 3,
    }
}
