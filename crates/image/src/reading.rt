// Reading an image: its blocks are checked, then its content, and only then the stores are written.
ghost use Rattle.std.specs.Prelude.{◌≡◌, ◌+◌, ◌*◌, ◌≤◌, length};
ghost use Rattle.laws.specs.Counting.{is_clear};
ghost use Rattle.laws.specs.Stores.{filled};
ghost use Rattle.block.specs.Block.{block_content, block_bytes, content_at};
ghost use Rattle.image.specs.Image.{left_out, words_place, min_blocks, block_count, content_from, form_in, head_in, block_checks, read_of, read_call};
ghost use Rattle.image.specs.Steps.{form_number, form_of, content_measured};

use crate::{FORM, HEAD_PLACE, OLDER_FORM, WORDS_PLACE};
use block::{BLOCK_BYTES, BLOCK_CONTENT, blocks_for, content_at, first_bad};
use head::{Head, NUMBERS, Used};
use mixer::Kind;
use refusal::Refusal;

// The fewest blocks that an image has.
const MIN_BLOCKS: usize = 2;

// The forms of a content that are read.
#[derive(Clone, Copy)]
enum Form {
    // What is written.
    Current,
    // What is older, and has no kind.
    Older,
}

// The form that a number stands for. Every other number is refused.
impl TryFrom<u64> for Form {
    type Error = Refusal;

    ghost try_from_gives = { λ number form. form ≡ form_of number };

    #[tactic(auto, unfolding(crate::specs::Steps::form_of))]
    fn try_from(number: u64) -> Result<Form, Refusal> {
        match number {
            FORM => Ok(Form::Current),
            OLDER_FORM => Ok(Form::Older),
            _ => Err(Refusal::UnfitContent),
        }
    }
}

impl Form {
    // How many of the first numbers of a head it leaves out.
    fn left_out(self) -> usize
        ensures { result ≡ left_out (form_number self) }
    {
        match self {
            Form::Current => 0,
            Form::Older => 1,
        }
    }

    // Where the words of the levels begin in a content of this form.
    fn words_place(self) -> usize
        ensures { result ≡ words_place (form_number self) }
    {
        WORDS_PLACE - self.left_out()
    }
}

// Reads an image into a word and a sample store, and answers its head.
pub fn read(image: &[u8], words: &mut [u64], samples: &mut [u64]) -> Result<Head, Refusal>
    ensures { read_of result words.new samples.new
        ≡ read_call image.now words.old samples.old }
{
    check_blocks(image)?;
    let form = Form::try_from(content_at(image, 0))?;
    let head = head_in(image, form);
    Kind::try_from(head.kind)?;
    let used = check_content(image, form, &head).ok_or(Refusal::UnfitContent)?;
    if !used.fits(words.len(), samples.len()) {
        return Err(Refusal::ShortOutput);
    }
    let word_end = used.words as usize;
    let start = form.words_place();
    copy_content(image, start, word_end, words);
    copy_content(image, start + word_end, used.samples as usize, samples);
    Ok(head)
}

// The checks of the length and of the blocks.
#[tactic(auto, unfolding(crate::specs::Image::block_checks))]
fn check_blocks(image: &[u8]) -> Result<(), Refusal>
    ensures { result ≡ block_checks image.now }
{
    if image.len() < BLOCK_BYTES * MIN_BLOCKS || image.len() % BLOCK_BYTES != 0 {
        return Err(Refusal::UnfitLength);
    }
    let blocks = image.len() / BLOCK_BYTES;
    let bad = first_bad(image, blocks);
    if bad != blocks {
        return Err(Refusal::BadBlock(bad as u64));
    }
    Ok(())
}

// The head, in a content of this form.
fn head_in(image: &[u8], form: Form) -> Head
    requires { (block_bytes * min_blocks ≤ length image.now) × (form_number form ≡ form_in image.now) }
    ensures { result ≡ head_in image.now }
{
    let mut found = [0; NUMBERS];
    let skipped = form.left_out();
    copy_content(image, HEAD_PLACE, NUMBERS - skipped, &mut found[skipped..]);
    Head::read(&found)
}

// What the levels of a head use, if the blocks hold an index of that head.
fn check_content(image: &[u8], form: Form, head: &Head) -> Option<Used>
    requires { form_number form ≡ form_in image.now }
    ensures { result ≡ content_measured image.now head.now.count head.now.levels head.now.sizes }
{
    let used = head.measure()?;
    if !head.unused_clear() {
        return None;
    }
    let end = form.words_place() as u64 + used.words + used.samples;
    let blocks = image.len() / BLOCK_BYTES;
    if blocks as u64 != blocks_for(end) {
        return None;
    }
    content_clear(image, end as usize, BLOCK_CONTENT * blocks).then_some(used)
}

// Whether the content is 0 from one place up to another.
fn content_clear(image: &[u8], from: usize, to: usize) -> bool
    requires { to ≤ block_content * block_count image.now }
    ensures { result ≡ is_clear (content_at image.now) from to }
{
    (from..to).all(|c| content_at(image, c) == 0)
}

// Copies n words of the content to the front of a store, and puts 0 past them.
fn copy_content(image: &[u8], from: usize, n: usize, out: &mut [u64])
    requires { (n ≤ length out.old) × (from + n ≤ block_content * block_count image.now) }
    ensures { out.new ≡ filled (content_from image.now from n) (length out.old) }
{
    for (i, place) in out[..n].iter_mut().enumerate() {
        *place = content_at(image, from + i);
    }
    out[n..].fill(0);
}
