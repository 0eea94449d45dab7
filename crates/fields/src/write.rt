// Numbers and versions written into bytes.
ghost use Rattle.std.specs.Prelude.{◌≡◌, true};
ghost use Rattle.std.specs.List.{AllByRecursion};
ghost use Rattle.fields.specs.Written.{bytes32, version_bytes, row_bytes, has_room, written, VersionFits};

use shelves::Version;

// Puts bytes in place and says yes, or says no where they would not fit, and then no byte has changed.
// Yes or no, here and below: whether there is room can be asked beforehand, and a caller that knows needs no answer.
fn write(bytes: &mut [u8], at: usize, new: &[u8]) -> bool
    ensures answer { result ≡ has_room bytes.old at new.now }
    ensures after { bytes.new ≡ written bytes.old at new.now }
{
    if new.len() > bytes.len() {
        return false;
    }
    if at > bytes.len() - new.len() {
        return false;
    }
    bytes[at..at + new.len()].copy_from_slice(new);
    true
}

// The 24 bytes of a version.
fn version_bytes(version: Version) -> [u8; 24]
    ensures value { result ≡ version_bytes version }
    ensures fits { VersionFits version }
{
    let mut place = [0; 24];
    place[0..4].copy_from_slice(&version.number.to_le_bytes());
    place[4..8].copy_from_slice(&version.stamp.to_le_bytes());
    place[8..12].copy_from_slice(&version.mark.to_le_bytes());
    place[12..16].copy_from_slice(&u32::from(version.state).to_le_bytes());
    place[16..24].copy_from_slice(&version.value.to_le_bytes());
    place
}

// Writes a number into four bytes and says yes, or says no where they would not fit, and then no byte has changed.
pub fn write32(bytes: &mut [u8], at: usize, number: u32) -> bool
    ensures answer { result ≡ has_room bytes.old at (bytes32 number) }
    ensures after { bytes.new ≡ written bytes.old at (bytes32 number) }
{
    write(bytes, at, &number.to_le_bytes())
}

// Writes versions one behind the other, 24 bytes each, and says yes, or says no where they would not fit, and then no byte has changed.
pub fn write_row(bytes: &mut [u8], start: usize, versions: &[Version]) -> bool
    ensures answer { result ≡ has_room bytes.old start (row_bytes versions.now) }
    ensures after { bytes.new ≡ written bytes.old start (row_bytes versions.now) }
    ensures fits { result ≡ true → AllByRecursion VersionFits versions.now }
{
    if start > bytes.len() {
        return false;
    }
    if versions.len() > (bytes.len() - start) / 24 {
        return false;
    }
    // At offsets by number: of what a chain writes into chunks, nothing is known afterwards.
    for (j, version) in versions.iter().enumerate() {
        write(bytes, start + 24 * j, &version_bytes(*version));
    }
    true
}
