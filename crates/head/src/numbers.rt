// A head as numbers, one after another: kind, id count, level count, sizes.
ghost use Rattle.std.specs.Prelude.{◌≡◌, ◌≤◌, ◌<◌, length, get_or};
ghost use Rattle.laws.specs.Stores.{fronted};
ghost use Rattle.head.specs.Numbers.{head_numbers, head_of, numbers_of};

use crate::Head;
use bounds::HEAD_SIZES;

// How many numbers stand before the sizes, and how many a head is.
const BEFORE_SIZES: usize = 3;

pub const NUMBERS: usize = BEFORE_SIZES + HEAD_SIZES;

impl Head {
    // The head of so many numbers.
    pub fn read(numbers: &[u64]) -> Head
        requires { length numbers.now ≡ head_numbers }
        ensures { result ≡ head_of numbers.now }
    {
        let mut sizes = [0; HEAD_SIZES];
        sizes.copy_from_slice(&numbers[BEFORE_SIZES..]);
        Head {
            kind: numbers[0],
            count: numbers[1],
            levels: numbers[2],
            sizes,
        }
    }

    // Writes its numbers to the front of a store.
    pub fn write(&self, out: &mut [u64])
        requires { head_numbers ≤ length out.old }
        ensures { out.new ≡ fronted (numbers_of self.now) out.old }
    {
        out[0] = self.kind;
        out[1] = self.count;
        out[2] = self.levels;
        out[BEFORE_SIZES..NUMBERS].copy_from_slice(&self.sizes);
    }

    // Its number i.
    pub fn number(&self, i: usize) -> u64
        requires { i < head_numbers }
        ensures { result ≡ get_or (numbers_of self.now) i 0 }
    {
        match i {
            0 => self.kind,
            1 => self.count,
            2 => self.levels,
            _ => self.sizes[i - BEFORE_SIZES],
        }
    }
}
