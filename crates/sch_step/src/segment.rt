//! A range of a machine's memory.

ghost use Rattle.std.specs.Prelude.{◌≡◌, ◌+◌, ◌<◌, ◌≤◌, ◌∷◌, [], ◌^◌, vec_len, drop};
ghost use Rattle.std.specs.Int.{w64, to_le_bytes};
ghost use Rattle.sch_insn.specs.Machine.{holds, with_bytes, put_bytes};

/// A range of a machine's memory, with its rights.
#[derive(Drop)]
pub struct Segment {
    pub address: u64,
    pub readable: bool,
    pub writable: bool,
    pub executable: bool,
    pub bytes: Vec<u8>,
}

impl Segment {
    ghost use Rattle.sch_step.specs.Layout.{segment_view};

    /// Whether n bytes from an address on lie in the segment.
    #[inline(always)]
    pub(crate) fn holds(&self, address: u64, n: u64) -> bool
        ensures { result ≡ holds (segment_view self.now) address n }
    {
        let len = self.bytes.len() as u64;
        if address < self.address {
            return false;
        }
        let place = address - self.address;
        place <= len && n <= len - place
    }

    /// The bytes from a place on.
    #[inline(always)]
    pub(crate) fn tail(&self, k: usize) -> &[u8]
        requires { k ≤ vec_len self.now.bytes }
        ensures { result.now ≡ drop k self.now.bytes.items }
    {
        &self.bytes.as_slice()[k..]
    }

    /// Puts a word at a place.
    #[inline(always)]
    pub(crate) fn put_word(&mut self, k: usize, value: u64)
        requires { k + 8 ≤ vec_len self.old.bytes }
        ensures { segment_view self.new ≡ with_bytes (segment_view self.old) (put_bytes self.old.bytes.items k (to_le_bytes w64 value)) }
    {
        let bytes = self.bytes.as_mut_slice();
        bytes[k..k + 8].copy_from_slice(&value.to_le_bytes());
    }

    /// Puts a byte at a place.
    #[inline(always)]
    pub(crate) fn put_byte(&mut self, k: usize, value: u8)
        requires { k < vec_len self.old.bytes }
        ensures { segment_view self.new ≡ with_bytes (segment_view self.old) (put_bytes self.old.bytes.items k (value ∷ [])) }
    {
        let bytes = self.bytes.as_mut_slice();
        bytes[k..k + 1].copy_from_slice(&[value]);
    }
}
