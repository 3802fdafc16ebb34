// What a hint's clause does where some literals are false, in one pass: the first literal that isn't false is forced, unless
// another one follows.
ghost use Rattle.std.specs.Prelude.{◌≡◌};
ghost use Rattle.lrat_rules.specs.Chain.{literals_of, effect};
ghost use Rattle.lrat_rules.specs.Pass.{effect_of_forced, forced_with, agrees};

use crate::outcome::Effect;
use cnf_base::Lit;

/// The effect of a hint's clause where these literals are false.
pub fn effect_on(literals: &[Lit], clause: &[Lit]) -> Effect
    ensures { result ≡ effect (literals_of literals.now) clause.now }
{
    let mut forced = None;
    for literal in clause {
        if is_among(literals, *literal) {
            continue;
        }
        if !force(&mut forced, *literal) {
            return Effect::NotUnit;
        }
    }
    effect_of_forced(forced)
}

/// Whether a literal is one of these few. (`contains` would be a call of its own, dearer than the tests.)
#[inline(always)]
pub fn is_among(literals: &[Lit], literal: Lit) -> bool
    ensures { result ≡ literals_of literals.now literal }
{
    for own in literals {
        if literal == *own {
            return true;
        }
    }
    false
}

/// Forces a literal that isn't false. The answer is whether no other one was forced before.
#[inline(always)]
pub(crate) fn force(forced: &mut Option<Lit>, literal: Lit) -> bool
    ensures forced { forced.new ≡ forced_with forced.old literal }
    ensures alone { result ≡ agrees forced.old literal }
{
    match *forced {
        None => {
            *forced = Some(literal);
            true
        }
        Some(first) => first == literal,
    }
}

/// The effect at the clause's end.
#[inline(always)]
pub(crate) fn effect_of_forced(forced: Option<Lit>) -> Effect
    ensures { result ≡ effect_of_forced forced }
{
    match forced {
        None => Effect::Conflict,
        Some(literal) => Effect::Unit(literal),
    }
}
