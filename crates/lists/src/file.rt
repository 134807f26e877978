// A list of answers, read from a file: lines of numbers in decimal, with one space between two, and a check of them.
ghost use Rattle.std.specs.Prelude.{◌≤◌};
ghost use Rattle.lists.specs.declared.file.TheConstants.{BUFFER};

use crate::line::{Line, MOST};
use mixer::mix;
use std::io::Read;

// No line has more bytes.
const LONGEST: usize = 1_000_000;

// How many bytes are read at once.
const BUFFER: usize = 4096;

// The bytes of a file, which ends too where it cannot be read. The buffer is a part of it, since that of std's BufReader is on the heap.
#[derive(Drop)]
struct Bytes<R> {
    file: R,
    buffer: [u8; BUFFER],
    // Where the bytes of the buffer that are still to be read begin and end.
    at: usize,
    end: usize,
    ghost ordered: { at ≤ end },
    ghost inside: { end ≤ BUFFER },
}

impl<R: Read + Drop> Iterator for Bytes<R> {
    type Item = u8;

    fn next(&mut self) -> Option<u8> {
        if self.at >= self.end {
            self.at = 0;
            self.end = self.file.read(&mut self.buffer).unwrap_or(0);
        }
        let byte = *self.buffer[..self.end].get(self.at)?;
        self.at += 1;
        Some(byte)
    }
}

// A list that cannot be read, or was changed.
#[derive(Clone, Copy, Debug)]
pub struct Broken;

// A list that is read line by line.
#[derive(Drop)]
pub struct List<R> {
    bytes: Bytes<R>,
    // The check of all bytes before.
    check: u64,
    // The numbers of the last line, and past them what was there before.
    numbers: [u64; MOST],
}

impl<R: Read + Drop> List<R> {
    pub fn new(file: R) -> List<R> {
        let bytes = Bytes {
            file,
            buffer: [0; BUFFER],
            at: 0,
            end: 0,
        };
        List {
            bytes,
            check: 0,
            numbers: [0; MOST],
        }
    }

    // The next line; none, where it is the one number that ends the list: the check of all bytes before it, after which nothing may come. Inlined,
    // since a call hands its result over in memory, which costs as much as a short line.
    #[inline(always)]
    pub fn next_line(&mut self) -> Result<Option<Line<'_>>, Broken> {
        let check = self.check;
        let len = self.read_line().ok_or(Broken)?;
        if len > 1 {
            return Ok(Some(Line::new(&self.numbers, len)));
        }
        if self.numbers[0] == check && self.bytes.next().is_none() {
            Ok(None)
        } else {
            Err(Broken)
        }
    }

    // How many numbers the next line has, which are put at the front of the store. Its digits are taken one by one: they stand in no text that could be parsed, and
    // any number is read, also one that is too large, or has no digit.
    fn read_line(&mut self) -> Option<usize> {
        let mut len = 0;
        let mut value: u64 = 0;
        // Held here while the line is read: each byte waits for what the one before made of it.
        let mut check = self.check;
        let mut found = None;
        for byte in self.bytes.by_ref().take(LONGEST) {
            check = mix(check ^ u64::from(byte), 0);
            match char::from(byte).to_digit(10) {
                Some(digit) => value = value.wrapping_mul(10).wrapping_add(u64::from(digit)),
                None => {
                    let Some(number) = self.numbers.get_mut(len) else {
                        break;
                    };
                    *number = value;
                    len += 1;
                    value = 0;
                    if byte == b'\n' {
                        found = Some(len);
                        break;
                    }
                }
            }
        }
        self.check = check;
        found
    }
}
