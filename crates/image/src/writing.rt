// Writing an image: block after block, each word once.
ghost use Rattle.std.specs.Prelude.{◌≡◌, ◌+◌, ◌*◌, ◌≤◌, length};
ghost use Rattle.laws.specs.Stores.{fronted, pasted};
ghost use Rattle.refusal.specs.Answers.{counted};
ghost use Rattle.block.specs.Bytes.{all_bytes};
ghost use Rattle.block.specs.Block.{block_bytes, block_of, image_words};
ghost use Rattle.image.specs.Image.{write_call};
ghost use Rattle.image.specs.Steps.{content, Contented};

use crate::WORDS_PLACE;
use crate::content::Content;
use block::{
    BLOCK_BYTES, BLOCK_CONTENT, BLOCK_WORDS, CHECK_PLACE, blocks_for, check_step, put_word,
};
use head::Head;
use mixer::Kind;
use refusal::Refusal;

// Writes the image of an index to the front of a byte store, and counts its blocks.
pub fn write(head: &Head, words: &[u64], samples: &[u64], image: &mut [u8]) -> Result<u64, Refusal>
    ensures { counted result image.new ≡ write_call head.now words.now samples.now image.old }
{
    Kind::try_from(head.kind)?;
    let used = head.measure().ok_or(Refusal::UnfitHead)?;
    if !used.fits(words.len(), samples.len()) {
        return Err(Refusal::UnfitHead);
    }
    if !head.unused_clear() {
        return Err(Refusal::UnfitContent);
    }
    let blocks = blocks_for(WORDS_PLACE as u64 + used.words + used.samples);
    if BLOCK_BYTES as u64 * blocks > image.len() as u64 {
        return Err(Refusal::ShortOutput);
    }
    let content = Content {
        head,
        words: &words[..used.words as usize],
        samples: &samples[..used.samples as usize],
    };
    content.write_blocks(blocks as usize, image);
    Ok(blocks)
}

impl Content<'_> {
    // Writes its n blocks, one after another. Each goes by its number: once chunks_exact_mut has lent the blocks, no proof knows what was written into them.
    fn write_blocks(&self, n: usize, image: &mut [u8])
        requires { block_bytes * n ≤ length image.old }
        ensures { image.new ≡ fronted (all_bytes (image_words (content self.now) n)) image.old }
    {
        // Of its own, so that its parts are not read anew after each word that is written.
        let own = *self;
        for b in 0..n {
            own.write_block(b, image);
        }
    }

    // Writes block b: its number, its content and its check.
    fn write_block(&self, b: usize, image: &mut [u8])
        requires { block_bytes * b + block_bytes ≤ length image.old }
        ensures { image.new ≡ pasted (block_bytes * b) (all_bytes (block_of (content self.now) b)) image.old }
    {
        let first = BLOCK_WORDS * b;
        put_word(image, first, b as u64);
        let check = self.write_content(b, image);
        put_word(image, first + CHECK_PLACE, check);
    }

    // Writes the content of block b behind its number; the check of both. A word goes by its number, which gives its place in the content and in the block.
    fn write_content(&self, b: usize, image: &mut [u8]) -> u64
        requires { block_bytes * b + block_bytes ≤ length image.old }
        ensures { Contented (content self.now) b image.old result image.new }
    {
        let first = BLOCK_WORDS * b + 1;
        let from = BLOCK_CONTENT * b;
        let mut check = check_step(0, b as u64);
        for k in 0..BLOCK_CONTENT {
            let word = self.word(from + k);
            put_word(image, first + k, word);
            check = check_step(check, word);
        }
        check
    }
}
