//! What a compilation answers: a file, and what is listed of it.

ghost use Rattle.std.specs.Prelude.{◌≡◌, [], IfOk, map};

use sch_control::{Body, ControlProgram};
use sch_listing::Listing;
use sch_word::{Bytes, List, Mem};
use std::alloc::Global;

/// The file of a compiled program, and its listing.
#[derive(Drop)]
pub struct Compiled {
    /// The bytes of the file: an ELF-64 executable for x86-64.
    pub file: Bytes,
    pub listing: Listing,
}

// The name of a body, of which nothing else is kept.
fn name_of(body: Body) -> Bytes
    ensures { result ≡ body.name }
{
    let Body { name, .. } = body;
    name
}

fn gather_names(room: List<Bytes>, bodies: Vec<Body>) -> Result<List<Bytes>, Mem>
    requires { room ≡ [] }
    ensures { IfOk result (λ names. names ≡ map (λ b. b.name) bodies.items) }
{
    let mut names = room;
    for body in bodies {
        names.push(name_of(body))?;
    }
    Ok(names)
}

/// Room for the names of the bodies of a program.
pub(crate) fn room_for_names(alloc: Global, p: &ControlProgram) -> Result<List<Bytes>, Mem>
    ensures { IfOk result (λ room. room ≡ []) }
{
    Ok(List::from_vec(Vec::with_capacity(alloc, p.bodies.len())?))
}

/// The names of the bodies of a program, in their order. They are not copied, and the program is let go.
pub(crate) fn names_of(room: List<Bytes>, p: ControlProgram) -> Result<List<Bytes>, Mem>
    requires { room ≡ [] }
    ensures { IfOk result (λ names. names ≡ map (λ b. b.name) p.bodies) }
{
    let ControlProgram { bodies, .. } = p;
    gather_names(room, bodies.into_vec())
}
