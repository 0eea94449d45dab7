// The versions of one item in bytes, and their first faulty field.
ghost use Rattle.std.specs.Prelude.{◌≡◌, ◌+◌, ◌*◌, ◌<◌, ◌≤◌, length};
ghost use Rattle.shelves.specs.Rows.{any_committed};
ghost use Rattle.image.specs.Faults.{first, version_fault};
ghost use Rattle.image.specs.Layout.{row_at};

use fields::read32;
use shelves::State;

// `used` versions of 24 bytes each, from an offset on.
#[derive(Clone, Copy)]
pub(super) struct Places<'a> {
    pub(super) bytes: &'a [u8],
    pub(super) start: usize,
    pub(super) used: usize,
    ghost within: { start + 24 * used ≤ length bytes.now },
}

impl Places<'_> {
    // The state of a version, then its number and stamp after those of the one before.
    fn version_fault(&self, j: usize) -> Option<usize>
        requires { j < self.now.used }
        ensures { result ≡ version_fault self.now.bytes.now self.now.start j }
    {
        let at = self.start + 24 * j;
        if State::try_from(read32(self.bytes, at + 12)).is_err() {
            return Some(at + 12);
        }
        if j == 0 {
            return None;
        }
        let before = self.start + 24 * (j - 1);
        if read32(self.bytes, at) <= read32(self.bytes, before) {
            return Some(at);
        }
        if read32(self.bytes, at + 4) < read32(self.bytes, before + 4) {
            return Some(at + 4);
        }
        None
    }

    // A version is judged beside the one before it, and its fault is an offset in all bytes: so they go by number, not by chunk.
    pub(super) fn fault(&self) -> Option<usize>
        ensures { result ≡ first (version_fault self.now.bytes.now self.now.start) 0 self.now.used }
    {
        (0..self.used).find_map(|j| self.version_fault(j))
    }

    pub(super) fn any_committed(&self) -> bool
        ensures { result ≡ any_committed (row_at self.now.bytes.now self.now.start self.now.used) }
    {
        // 0 is committed.
        let places = &self.bytes[self.start..self.start + 24 * self.used];
        places.chunks_exact(24).any(|place| read32(place, 12) == 0)
    }
}
