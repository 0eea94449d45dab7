// Tests of the image: damaged bytes with the offset of each fault, the same edits on an image and on a drawer, and rows laid out.
#![tactic(auto)]

ghost use Rattle.std.specs.Prelude.{◌≡◌, ◌+◌, ◌*◌};

#[cfg(test)]
mod damaged;
#[cfg(test)]
mod edited;
#[cfg(test)]
mod laid;
#[cfg(test)]
mod sample;

// The length of an image of so many items.
pub fn image_length(items: u32) -> u64
    ensures { result ≡ 8 + 194 * items }
{
    8 + 194 * u64::from(items)
}
