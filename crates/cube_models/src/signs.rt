// What a cube says of each variable.
ghost use Rattle.std.specs.Prelude.{◌≡◌, ◌<◌, ◌≤◌, ◌&&◌, IsTrue, IfOk, length, replicate, not, Some, None};
ghost use Rattle.std.specs.List.{list_all};
ghost use Rattle.cnf_base.specs.Cube.{is_consistent};
ghost use Rattle.cnf_base.specs.Truth.{is_literal_of};
ghost use Rattle.cube_models.specs.Way.{Assumes, allows, is_on, sign_of};

use cnf_base::{Lit, OutOfMemory};

/// Assumes what a cube says, and nothing else of so many variables.
pub fn assume(signs: &mut Vec<Option<bool>>, vars: usize, cube: &[Lit]) -> Result<(), OutOfMemory>
    requires variables { IsTrue (list_all (is_literal_of vars) cube.now) }
    requires consistent { IsTrue (is_consistent cube.now) }
    ensures { IfOk result (λ _. Assumes vars cube.now (length cube.now) signs.new.items) }
{
    signs.clear();
    signs.resize(vars, None)?;
    'literals: for literal in cube {
        signs[literal.var() as usize - 1] = Some(!literal.is_negative());
    }
    Ok(())
}

/// What is assumed of a variable.
#[inline(always)]
pub fn sign_of(signs: &[Option<bool>], variable: u32) -> Option<bool>
    requires some { 0 < variable }
    requires within { variable ≤ length signs.now }
    ensures { result ≡ sign_of signs.now variable }
{
    signs[variable as usize - 1]
}

/// Whether a value is as assumed.
#[inline(always)]
pub fn allows(sign: Option<bool>, value: bool) -> bool
    ensures { result ≡ allows sign value }
{
    match sign {
        None => true,
        Some(assumed) => assumed == value,
    }
}

/// Whether true is assumed.
#[inline(always)]
pub fn is_on(sign: Option<bool>) -> bool
    ensures { result ≡ is_on sign }
{
    match sign {
        None => false,
        Some(assumed) => assumed,
    }
}
