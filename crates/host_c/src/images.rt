// The calls on images, for C: those of `host`. An image is a pointer to bytes and their number.
ghost use Rattle.std.specs.Prelude.{◌≡◌};
ghost use Rattle.host.specs.Flat.{seen, flat_loaded, flat_write, flat_read};

// Writes the image of an index to the front of the store: how many blocks it has, or the refusal.
#[unsafe(no_mangle)]
pub extern "C" fn shawltide_image_write(
    head: &[u64],
    words: &[u64],
    samples: &[u64],
    image: &mut [u8],
) -> u64
    ensures { seen result image.new
        ≡ flat_write head.now words.now samples.now image.old }
{
    host::shawltide_image_write(head, words, samples, image)
}

// Reads an image into the stores: 0, or the refusal. `out` gets the block that refusal 14 carries, else 0, and the head.
#[unsafe(no_mangle)]
pub extern "C" fn shawltide_image_read(
    image: &[u8],
    words: &mut [u64],
    samples: &mut [u64],
    out: &mut [u64],
) -> u64
    ensures { seen result (flat_loaded words.new samples.new out.new)
        ≡ flat_read image.now words.old samples.old out.old }
{
    host::shawltide_image_read(image, words, samples, out)
}
