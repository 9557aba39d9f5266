//! Whether a certificate has a fact on a path more than once.

ghost use Rattle.std.specs.Prelude.{◌↔◌, IfOk, IsTrue};
ghost use Rattle.rota_certificate.specs.CasePaths.{RepeatsFact};

use crate::paths::{go_on, is_on_path, with};
use rota_core::{Certificate, Node};
use std::alloc::{AllocError, Global};

/// Whether a fact occurs more than once on a path of the certificate's tree, from its root to a leaf.
/// A split by such a fact leaves one of its cases as it was, and the other one has no plans.
///
/// The only error is that memory runs out.
pub fn repeats_fact(alloc: Global, certificate: &Certificate) -> Result<bool, AllocError>
    ensures { IfOk result (λ is. IsTrue is ↔ RepeatsFact certificate.now) }
{
    let tree = &certificate.tree;
    let mut path = Vec::new(alloc);
    for node in &tree.nodes {
        match node {
            Node::Split(fact) => {
                if is_on_path(&path, *fact) {
                    return Ok(true);
                }
                path.push(with(*fact))?;
            }
            Node::Leaf(_) => {
                if !go_on(&mut path)? {
                    return Ok(false);
                }
            }
        }
    }
    Ok(false)
}
