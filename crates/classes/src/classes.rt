// Classes: what each member adds to the set, the other case, negation, and the place after the
// closing bracket.
ghost use Rattle.std.specs.Prelude.{◌≡◌, true, false, drop};
ghost use Rattle.sets.specs.Set.{empty_set};
ghost use Rattle.classes.specs.Answer.{class};
ghost use Rattle.classes.specs.Class.{joined, settled, members_of, class_of};

use crate::Class;
use crate::members::{byte_of, member_at};
use atoms::{Atom, cased, gap_at, is_mark, peek};
use refusals::{Fault, Refusal};

// A set with what a member adds.
fn join(set: [u64; 4], low: Atom, high: Atom) -> [u64; 4]
    ensures { result ≡ joined set low high }
{
    match low {
        Atom::Byte(b) => sets::insert_range(set, b, byte_of(high)),
        Atom::OfKind(k) => sets::union(set, kinds::of_kind(k)),
        Atom::NotOfKind(k) => sets::union(set, kinds::not_of_kind(k)),
        _ => set,
    }
}

// The set of a whole class: the other case comes before negation.
fn settle(caseless: bool, negated: bool, set: [u64; 4]) -> [u64; 4]
    ensures { result ≡ settled caseless negated set }
{
    let all = cased(caseless, set);
    if negated {
        return sets::complement(all);
    }
    all
}

// The members from a place on, up to the closing bracket.
fn members_at(s: &[u8], at: usize, caseless: bool, negated: bool) -> Result<Class, Fault>
    ensures { class result ≡ members_of caseless negated true false empty_set 0 (drop at s.now) at }
{
    let mut set = sets::empty();
    let mut first = true;
    let mut quoted = false;
    let mut i = at;
    // A turn takes as many bytes as its member has: no `for`.
    while i < s.len() {
        let c = s[i];
        let after = i + 1;
        let d = peek(s, after);
        if is_mark(quoted, c, d) {
            quoted = d == b'Q';
            i += 2;
        } else {
            if (c == b']') & !(first | quoted) {
                return Ok(Class {
                    place: after,
                    set: settle(caseless, negated, set),
                });
            }
            let m = member_at(s, i, caseless, quoted);
            let ends = match m.ends {
                Ok(ends) => ends,
                Err(refusal) => return Err(Fault { refusal, place: i }),
            };
            let more = join(set, ends.low, ends.high);
            set = more;
            first = false;
            quoted = m.quoted;
            i += m.size;
        }
    }
    Err(Fault {
        refusal: Refusal::OpenClass,
        place: i,
    })
}

// The class at a place after its `[`.
pub fn class_at(s: &[u8], at: usize, caseless: bool) -> Result<Class, Fault>
    ensures { class result ≡ class_of caseless (drop at s.now) at }
{
    let g = gap_at(s, at, false);
    let from = at + g.size;
    if (peek(s, from) == b'^') & !g.quoted {
        return members_at(s, from + 1, caseless, true);
    }
    members_at(s, at, caseless, false)
}
