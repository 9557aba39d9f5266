//! The path from the root of a tree of cases to a node: the first condition is the root's.

ghost use Rattle.std.specs.Prelude.{◌≡◌, ◌++◌, ◌↔◌, IfOk, IsTrue, None, Some, if◌then◌else◌, reverse};
ghost use Rattle.rota_certificate.specs.CasePaths.{IsOnPath, with, without};
ghost use Rattle.rota_certificate.specs.NextPaths.{next_path};

use rota_core::{Condition, Fact};
use std::alloc::{AllocError, Global};

/// The condition that the fact holds.
pub fn with(fact: Fact) -> Condition
    ensures { result ≡ with fact }
{
    Condition { fact, holds: true }
}

// The condition that the fact does not hold.
fn without(fact: Fact) -> Condition
    ensures { result ≡ without fact }
{
    Condition { fact, holds: false }
}

// Whether the condition is about the fact.
fn is_about(condition: Condition, fact: Fact) -> bool
    ensures { IsTrue result ↔ (condition.fact ≡ fact) }
{
    condition.fact == fact
}

/// Whether a condition of the path is about the fact.
pub fn is_on_path(path: &[Condition], fact: Fact) -> bool
    ensures { IsTrue result ↔ IsOnPath fact path.now }
{
    path.iter().any(|one| is_about(*one, fact))
}

/// Goes on to the case that comes next in the tree, after all cases below the end of the path. The
/// result is whether there is one.
pub fn go_on(path: &mut Vec<Condition>) -> Result<bool, AllocError>
    ensures { IfOk result (λ is. next_path (reverse path.old.items) ≡ (if is then Some (reverse path.new.items) else None)) }
{
    while let Some(last) = path.pop() {
        if last.holds {
            path.push(without(last.fact))?;
            return Ok(true);
        }
    }
    Ok(false)
}

/// The case at the end of the path: its conditions, then the given ones.
pub fn case_at(
    alloc: Global,
    path: &[Condition],
    given: &[Condition],
) -> Result<Vec<Condition>, AllocError>
    ensures { IfOk result (λ case. case.items ≡ path.now ++ given.now) }
{
    let mut case = Vec::with_capacity(alloc, path.len() + given.len())?;
    case.extend_from_slice(path)?;
    case.extend_from_slice(given)?;
    Ok(case)
}
