// A log, byte by byte.
ghost use Rattle.std.specs.Prelude.{◌≡◌, suc, ◌+◌, ◌≤◌, ◌<◌, length};
ghost use Rattle.sets.specs.Set.{as_one};
ghost use Rattle.plain.specs.Run.{marks_at, closed, inside, shown, lent};
ghost use Rattle.pattern.specs.Windows.{windows_of};
ghost use Rattle.nodes.specs.Invariants.{form_at};
ghost use Rattle.plain.specs.Invariants.{Asks, due, choice_of, Slots, Reported, Both, Delivered, Runs, Stands, Stepped, Closes, Closed, Ran};

use marks::byte::take_byte;
use marks::parts::WORDS;
use marks::starts::NONE;
use marks::write_out;
use pattern::Bounds;

// What is reported of a rule's matches: the first alone, or all; with their starts, or with zeros;
// and only those inside the bounds.
#[derive(Clone, Copy)]
pub(super) struct Wanted {
    pub single: bool,
    pub leftmost: bool,
    pub bounds: Bounds,
}

// Whether the bounds let a match from x to e through; where x is NONE they do not.
fn inside(bounds: Bounds, x: u64, e: usize) -> bool
    ensures { result ≡ inside (windows_of bounds) e x }
{
    let end = e as u64;
    if (end < bounds.lowest) | (end > bounds.highest) {
        return false;
    }
    if x > end {
        return false;
    }
    bounds.shortest <= end - x
}

// The start that is reported.
fn start_of(leftmost: bool, x: u64) -> u64
    ensures { result ≡ shown leftmost x }
{
    if leftmost { x } else { 0 }
}

impl Wanted {
    // Reports offset e, whose least start is x, if it is new, inside the bounds and the rule may
    // still report; how many reports there are then.
    fn report(
        self,
        offsets: &mut [u64],
        starts: &mut [u64],
        count: usize,
        new: bool,
        e: usize,
        x: u64,
    ) -> usize
        requires { Slots (lent offsets.old starts.old) (count + as_one (due self new e x)) }
        ensures { Reported self new e x count (lent offsets.old starts.old) result (lent offsets.new starts.new) }
    {
        let due = new & inside(self.bounds, x, e);
        if due & !(self.single & (count > 0)) {
            offsets[count] = e as u64;
            starts[count] = start_of(self.leftmost, x);
            return count + 1;
        }
        count
    }

    // Reports offset k, and then offset k + 1, each where it is due.
    fn both(
        self,
        offsets: &mut [u64],
        starts: &mut [u64],
        count: usize,
        first: bool,
        k: usize,
        x: u64,
        second: bool,
        y: u64,
    ) -> usize
        requires { Slots (lent offsets.old starts.old) (count + as_one (due self first k x) + as_one (due self second (suc k) y)) × (k < 1024) }
        ensures { Both self first second k x y count (lent offsets.old starts.old) result (lent offsets.new starts.new) }
    {
        let c = self.report(offsets, starts, count, first, k, x);
        self.report(offsets, starts, c, second, k + 1, y)
    }
}

// How far a run came: the reports, and the least starts of the matches that end before the last
// byte taken and with it.
#[derive(Clone, Copy)]
pub(super) struct Taken {
    pub count: usize,
    pub late: u64,
    pub own: u64,
}

// A rule that is written out, by its nodes, their root and its rows in words, the whole log, and
// what is wanted of the run. The words are an array, so that `take_byte` knows how many there are.
#[derive(Clone, Copy)]
struct Run<'a> {
    nodes: &'a [u64],
    root: usize,
    parts: &'a [u64; WORDS],
    rows: usize,
    log: &'a [u8],
    wanted: Wanted,
}

impl<'a> Run<'a> {
    // Takes the byte at offset k and reports what it settles.
    fn step(
        &self,
        marks: &mut [u64; 256],
        k: usize,
        offsets: &mut [u64],
        starts: &mut [u64],
        t: Taken,
    ) -> Taken
        requires { Runs self.now.nodes.now self.now.root self.now.parts.now self.now.rows self.now.log.now (suc k) (lent offsets.old starts.old) × Stands (form_at self.now.nodes.now self.now.root) self.now.wanted self.now.log.now k marks.old t }
        ensures { Stepped (form_at self.now.nodes.now self.now.root) self.now.wanted self.now.log.now k t (lent offsets.old starts.old) (lent offsets.new starts.new) marks.new result }
    {
        let parts = self.parts;
        let ends = take_byte(
            self.nodes, self.root, parts, self.rows, marks, self.log, k, false,
        );
        let new = !inside(self.wanted.bounds, t.own, k);
        let count = self.wanted.both(offsets, starts, t.count, new, k, ends.late, true, ends.own);
        Taken {
            count,
            late: ends.late,
            own: ends.own,
        }
    }

    // The closing, with the marks before the last byte, at offset k: that byte is taken once more,
    // with the end known. `own` was settled before it, t with it.
    fn close(
        &self,
        marks: &mut [u64; 256],
        k: usize,
        offsets: &mut [u64],
        starts: &mut [u64],
        own: u64,
        t: Taken,
    ) -> usize
        requires { Runs self.now.nodes.now self.now.root self.now.parts.now self.now.rows self.now.log.now (suc k) (lent offsets.old starts.old) × Closes (form_at self.now.nodes.now self.now.root) self.now.wanted self.now.log.now k marks.old own t }
        ensures { Closed (form_at self.now.nodes.now self.now.root) self.now.wanted self.now.log.now k t (lent offsets.old starts.old) result (lent offsets.new starts.new) }
    {
        let bounds = self.wanted.bounds;
        let parts = self.parts;
        let ends = take_byte(
            self.nodes, self.root, parts, self.rows, marks, self.log, k, true,
        );
        let first = !inside(bounds, own, k) & !inside(bounds, t.late, k);
        let second = !inside(bounds, t.own, k + 1);
        self.wanted.both(
            offsets, starts, t.count, first, k, ends.late, second, ends.own,
        )
    }

    // Takes the first n bytes.
    fn run(
        &self,
        marks: &mut [u64; 256],
        n: usize,
        offsets: &mut [u64],
        starts: &mut [u64],
    ) -> Taken
        requires { Runs self.now.nodes.now self.now.root self.now.parts.now self.now.rows self.now.log.now n (lent offsets.old starts.old) × (marks.old ≡ marks_at self.now.log.now (form_at self.now.nodes.now self.now.root) 0) }
        ensures { Ran (form_at self.now.nodes.now self.now.root) self.now.wanted self.now.log.now n (lent offsets.old starts.old) (lent offsets.new starts.new) marks.new result }
    {
        let mut t = Taken {
            count: 0,
            late: NONE,
            own: NONE,
        };
        for k in 0..n {
            t = self.step(marks, k, offsets, starts, t);
        }
        t
    }

    // All of the log, and the closing, over the rows; how many reports.
    fn all(&self, offsets: &mut [u64], starts: &mut [u64]) -> usize
        requires { Runs self.now.nodes.now self.now.root self.now.parts.now self.now.rows self.now.log.now (length self.now.log.now) (lent offsets.old starts.old) }
        ensures { Delivered self.now.wanted (lent offsets.old starts.old) (lent offsets.new starts.new) result (closed (choice_of self.now.wanted) self.now.log.now (form_at self.now.nodes.now self.now.root) (length self.now.log.now)) }
    {
        let n = self.log.len();
        if n == 0 {
            return 0;
        }
        let mut marks = [NONE; 256];
        let t = self.run(&mut marks, n - 1, offsets, starts);
        let mut before = marks;
        let all = self.step(&mut marks, n - 1, offsets, starts, t);
        self.close(&mut before, n - 1, offsets, starts, t.own, all)
    }
}

// The same from the nodes: the pattern is written out first.
pub(super) fn whole<'a>(
    nodes: &'a [u64],
    root: usize,
    log: &'a [u8],
    wanted: Wanted,
    offsets: &mut [u64],
    starts: &mut [u64],
) -> usize
    requires { Asks nodes.now root log.now (lent offsets.old starts.old) }
    ensures { Delivered wanted (lent offsets.old starts.old) (lent offsets.new starts.new) result (closed (choice_of wanted) log.now (form_at nodes.now root) (length log.now)) }
{
    let mut parts = [0u64; WORDS];
    let rows = write_out::write_rule(nodes, root, &mut parts);
    let run = Run {
        nodes,
        root,
        parts: &parts,
        rows,
        log,
        wanted,
    };
    run.all(offsets, starts)
}
