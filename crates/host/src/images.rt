// An index on disk: the calls on images, with the head as numbers and each answer as one number. An image is a slice of bytes.
ghost use Rattle.std.specs.Prelude.{◌≡◌};
ghost use Rattle.host.specs.Flat.{seen, flat_loaded, flat_write, flat_read};

use crate::answer::{number, refused};
use crate::index::{OUT, head_of, write_out};
use refusal::Refusal;

// Writes the image of an index to the front of the store: how many blocks it has, or the refusal.
pub fn shawltide_image_write(head: &[u64], words: &[u64], samples: &[u64], image: &mut [u8]) -> u64
    ensures { seen result image.new
        ≡ flat_write head.now words.now samples.now image.old }
{
    let Some(head) = head_of(head) else {
        return refused(Refusal::UnfitHead);
    };
    number(image::write(&head, words, samples, image))
}

// Reads an image into the stores: 0, or the refusal. `out` gets the block that refusal 14 carries, else 0, and the head.
pub fn shawltide_image_read(
    image: &[u8],
    words: &mut [u64],
    samples: &mut [u64],
    out: &mut [u64],
) -> u64
    ensures { seen result (flat_loaded words.new samples.new out.new)
        ≡ flat_read image.now words.old samples.old out.old }
{
    if out.len() < OUT {
        return refused(Refusal::ShortOutput);
    }
    let loaded = image::read(image, words, samples);
    write_out(&loaded, out);
    number(loaded)
}
