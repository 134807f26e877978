// `compare` with a test of the caller's own, on lists in memory. Their checks are those that the oracle writes behind such lines.
use super::*;

// A file in memory: what of it is still to be read.
#[derive(Drop)]
struct Text<'a> {
    left: &'a [u8],
}

impl Read for Text<'_> {
    fn read(&mut self, buf: &mut [u8]) -> io::Result<usize> {
        let n = buf.len().min(self.left.len());
        let (read, left) = self.left.split_at(n);
        buf[..n].copy_from_slice(read);
        self.left = left;
        Ok(n)
    }
}

// Whether a line's first two numbers are the same, and the store beside it is a copy of the line. The store is overwritten, so that it holds the next line only if
// that is copied anew.
fn twins(line: Line<'_>, store: &mut [u64]) -> bool {
    let copied = line.is_left(store, 0, &[]);
    store.fill(7);
    copied && line.number(0) == line.number(1)
}

// What became of a list, and at which line or after how many.
fn told(outcome: Result<u64, Fault>) -> (char, u64) {
    match outcome {
        Ok(cases) => ('=', cases),
        Err(Fault::Differs(case)) => ('!', case),
        Err(Fault::Broken(line)) => ('?', line),
    }
}

#[test]
fn compares_by_a_test_of_its_own(rt: HostRuntime) {
    for (text, want) in [
        ("0\n", ('=', 0)),
        ("5 5\n6 6\n10255023525468770236\n", ('=', 2)),
        ("5 5\n6 7\n8 8\n11226149628272580333\n", ('!', 2)),
        ("5 5\n6 6\n10255023525468770237\n", ('?', 3)),
        ("5 5\n6 6\n", ('?', 3)),
        ("", ('?', 1)),
    ] {
        let left = text.as_bytes();
        let outcome = compare(&mut List::new(Text { left }), twins);
        assert_eq!(rt; told(outcome), want, "{text}");
    }
}

// The list `fold` has this line. Of a kind of case both say the same.
#[test]
fn compares_as_a_kind_does(rt: HostRuntime) {
    for (text, want) in [
        (
            "17241115291403678424 1961840090\n13450621642797142490\n",
            ('=', 1),
        ),
        (
            "17241115291403678424 1961840091\n5689140819964097861\n",
            ('!', 1),
        ),
    ] {
        let left = text.as_bytes();
        let by_test = compare(&mut List::new(Text { left }), |line, _| cases::fold(line));
        let by_kind = compare_as(&mut List::new(Text { left }), Case::Fold);
        assert_eq!(rt; told(by_test), want, "{text}");
        assert_eq!(rt; told(by_kind), want, "{text}");
    }
}
