// From where and to where a step goes. Its tests at the door are the same of a point and of six feet.
ghost use Rattle.std.specs.Prelude.{◌≡◌, Bool, true};
ghost use Rattle.numbers.proofs.OnePass.{FiniteEnds};
ghost use Rattle.numbers.specs.declared.door.Limit.{Limit};
ghost use Rattle.legs.specs.Legs.{finite_point, permitted_point, finite_feet, permitted_feet};
ghost use Rattle.legs.proofs.OnePass.{point_finite, feet_finite};

use legs::{Feet, Point};
use numbers::door::Limit;

/// A point or a vector, or six feet.
pub trait Place: Copy {
    ghost finite: { Self → Bool };

    ghost permitted: { Limit → Self → Bool };

    /// Whether every coordinate is finite.
    fn is_finite(self) -> bool
        ensures { result ≡ finite self };

    /// Whether every coordinate lies between the ends.
    fn is_permitted(self, limit: Limit) -> bool
        ensures { result ≡ permitted limit self };

    ghost permitted_is_finite: { (limit : Limit) → FiniteEnds limit → (place : Self) → permitted limit place ≡ true → finite place ≡ true };
}

impl Place for Point {
    ghost finite = { finite_point };

    ghost permitted = { permitted_point };

    ghost permitted_is_finite = { point_finite };

    fn is_finite(self) -> bool {
        legs::unchecked::point_finite(self)
    }

    fn is_permitted(self, limit: Limit) -> bool {
        legs::unchecked::point_permitted(limit, self)
    }
}

impl Place for Feet {
    ghost finite = { λ f. finite_feet f };

    ghost permitted = { λ limit f. permitted_feet limit f };

    ghost permitted_is_finite = { feet_finite };

    fn is_finite(self) -> bool {
        legs::unchecked::feet_finite(self)
    }

    fn is_permitted(self, limit: Limit) -> bool {
        legs::unchecked::feet_permitted(limit, self)
    }
}
