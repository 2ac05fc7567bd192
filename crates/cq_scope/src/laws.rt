//! What stars mean, for those who read the definitions.
ghost use Rattle.cq_scope.specs.Laws as law;

/// `*` and a rest fit a name exactly if the rest fits what comes after some front of it, of any length.
pub fn a_star_takes_any_front()
    ensures { law.StarTakesAnyFront }
{}

/// `**` and a rest fit a path exactly if the rest fits what comes after some of its first parts, possibly none.
pub fn two_stars_take_any_parts()
    ensures { law.TwoStarsTakeAnyParts }
{}
