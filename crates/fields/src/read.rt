// Numbers and versions read from bytes; bytes past the end count as 0.
ghost use Rattle.std.specs.Prelude.{◌≡◌, ◌+◌, ◌≤◌, length, map};
ghost use Rattle.std.specs.List.{range_with_len};
ghost use Rattle.fields.specs.Fields.{byte, field32, version_at};

use shelves::{State, Version};

fn byte(bytes: &[u8], at: usize) -> u8
    ensures { result ≡ byte bytes.now at }
{
    bytes.get(at).copied().unwrap_or(0)
}

// As many bytes as are asked for, from an offset on.
fn part<const N: usize>(bytes: &[u8], at: usize) -> [u8; N]
    ensures { result ≡ map (λ k. byte bytes.now (at + k)) (range_with_len 0 N) }
{
    std::array::from_fn(|k| byte(bytes, at.saturating_add(k)))
}

// The number in four bytes that are all there: no byte is tested, so that they are read at once.
fn held32(bytes: &[u8], at: usize) -> u32
    requires { at + 4 ≤ length bytes.now }
    ensures { result ≡ field32 bytes.now at }
{
    u32::from_le_bytes([bytes[at], bytes[at + 1], bytes[at + 2], bytes[at + 3]])
}

// The number in the four bytes from an offset on.
pub fn read32(bytes: &[u8], at: usize) -> u32
    ensures { result ≡ field32 bytes.now at }
{
    if at <= bytes.len() && 4 <= bytes.len() - at {
        return held32(bytes, at);
    }
    u32::from_le_bytes(part(bytes, at))
}

// The version in 24 bytes; any state but 0 is read as pending.
fn version_in(place: &[u8]) -> Version
    requires { length place.now ≡ 24 }
    ensures { result ≡ version_at place.now 0 }
{
    Version {
        number: held32(place, 0),
        stamp: held32(place, 4),
        mark: held32(place, 8),
        state: State::try_from(held32(place, 12)).unwrap_or(State::Pending),
        value: u64::from(held32(place, 16)) + 4294967296 * u64::from(held32(place, 20)),
    }
}

// The version in the 24 bytes from an offset on.
pub fn read_version(bytes: &[u8], at: usize) -> Version
    ensures { result ≡ version_at bytes.now at }
{
    if at <= bytes.len() && 24 <= bytes.len() - at {
        return version_in(&bytes[at..at + 24]);
    }
    let place: [u8; 24] = part(bytes, at);
    version_in(&place)
}
