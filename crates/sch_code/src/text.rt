//! A text: the spellings of instructions, one after the other.

ghost use Rattle.std.specs.Prelude.{◌≡◌, ◌∷◌, [], ◌+◌, ◌≤◌, ◌++◌, IfOk, OnErr, OnOk, length, take};
ghost use Rattle.std.specs.List.{flat_map};
ghost use Rattle.sch_insn.specs.Spelling.{IsValid, spelling};

use crate::code::Code;
use crate::encoding::encode;
use sch_insn::Insn;
use sch_word::{Bytes, Mem};
use std::alloc::Global;
use std::marker::Model;

/// Instructions, kept as their spellings alone: the first `len` bytes. Those behind are room. Contracts see the
/// instructions.
#[derive(Drop)]
pub struct Text {
    bytes: Vec<u8>,
    len: usize,
    count: usize,
}

impl Model for Text {
    ghost use Rattle.std.specs.Prelude as prelude;
    ghost use Rattle.sch_insn.specs.declared.insn.Insn as insn;
    ghost use Rattle.sch_code.specs.Text.{IsText, spelled_by};

    ghost Value = { prelude.List insn.Insn };

    ghost view = { λ t. spelled_by (prelude.take t.len t.bytes.items) };

    ghost invariant = { λ t. IsText (prelude.take t.len t.bytes.items) t.count × prelude.◌≤◌ t.len (prelude.length t.bytes.items) };
}

impl Text {
    /// A text without instructions, with room for this number of bytes.
    pub fn with_capacity(alloc: Global, size: usize) -> Result<Text, Mem>
        ensures { IfOk result (λ text. text ≡ []) }
    {
        Ok(Text {
            bytes: vec![in alloc; 0u8; size.saturating_add(16)]?,
            len: 0,
            count: 0,
        })
    }

    /// One more instruction, and how many bytes its spelling has. Where memory runs out the text stays as it was.
    pub fn push(&mut self, i: &Insn) -> Result<usize, Mem>
        requires valid { IsValid i.now }
        ensures ok { OnOk result (self.new ≡ self.old ++ i.now ∷ []) }
        ensures err { OnErr result (self.new ≡ self.old) }
        ensures size { IfOk result (λ size. size ≡ length (spelling i.now)) }
    {
        let mut spelled = Code::new();
        let size = encode(i, &mut spelled);
        // The whole buffer is copied, since a number of bytes that is fixed takes one move.
        overwrite(&mut self.bytes, self.len, spelled.whole())?;
        self.len += size;
        self.count += 1;
        Ok(size)
    }

    /// How many instructions there are.
    pub fn len(&self) -> usize
        ensures { result ≡ length self.now }
    {
        self.count
    }

    /// The spellings, which are not copied.
    pub fn into_bytes(self) -> Bytes
        ensures { result ≡ flat_map spelling self }
    {
        let Text {
            mut bytes,
            len,
            count: _,
        } = self;
        bytes.truncate(len);
        Bytes::from_vec(bytes)
    }
}

/// Puts some bytes over those from a place on. Where the bytes end before them, there are more of them.
fn overwrite(bytes: &mut Vec<u8>, at: usize, some: &[u8; 16]) -> Result<(), Mem>
    requires within { at ≤ length bytes.old.items }
    ensures ok { OnOk result (take (at + 16) bytes.new.items ≡ take at bytes.old.items ++ some.now) }
    ensures err { OnErr result (bytes.new.items ≡ bytes.old.items) }
{
    let end = at + some.len();
    if bytes.len() < end {
        bytes.resize(end, 0)?;
    }
    bytes.as_mut_slice()[at..end].copy_from_slice(some);
    Ok(())
}
