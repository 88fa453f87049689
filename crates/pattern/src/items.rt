// What the readers share: where a reading is, and an item with the quantifier that may follow it.
ghost use Rattle.std.specs.Prelude.{◌≡◌, ◌+◌};
ghost use Rattle.nodes.specs.Node.{named, number_in};
ghost use Rattle.pattern.specs.Walk.{caret, dollar};
ghost use Rattle.pattern.specs.Invariants.{Room, assertion_for, in_code, SaidOne, SaidClass, SaidQuantified};

use crate::writer::Arena;
use atoms::{Atom, CAP};
use classes::class_at;
use nodes::layout::{Assertion, Node};
use refusals::Fault;
use tokens::{Options, Token, item_set, token_at};

// Where a reading is: it has read up to place `at`, the options hold from there on, and `tree` has
// the nodes of what was read. Each reader gives the number of the node that it has read. The
// pattern is lent beside it: as a field, each contract would have to say that it stays.
#[derive(Drop)]
pub struct Parser {
    pub at: usize,
    pub options: Options,
    pub tree: Arena,
}

impl Parser {
    // The quantifier that may follow an item or a group, whose node is `root`: comments and quotes'
    // marks may stand between them.
    pub(super) fn quantified(&mut self, s: &[u8], root: usize) -> Result<usize, Fault>
        requires room { Room s.now self.old 0 }
        requires root_value { root + 1 ≡ self.old.tree.n }
        ensures { SaidQuantified s.now self.old self.new root result }
    {
        let l = token_at(s, self.at, self.options);
        let token = match l.token {
            Ok(token) => token,
            Err(_) => return Ok(root),
        };
        match token {
            Token::Note(after) => {
                self.at += l.size;
                self.options = after;
                self.quantified(s, root)
            }
            Token::Repeat(copies) => {
                let copies = match copies {
                    Ok(copies) => copies,
                    Err(refusal) => {
                        return Err(Fault {
                            refusal,
                            place: self.at,
                        });
                    }
                };
                self.at += l.size;
                Ok(
                    self.tree.push(Node::Repeat {
                        child: root,
                        least: copies.least as u64,
                        more: more(copies.extra),
                    }),
                )
            }
            _ => Ok(root),
        }
    }

    // What one atom stands for, which was read: an assertion, or an item with the quantifier that
    // may follow it.
    pub(super) fn single(&mut self, s: &[u8], atom: Atom) -> Result<usize, Fault>
        requires { Room s.now self.old 5 }
        ensures { SaidOne s.now self.old self.new atom result }
    {
        match assertion_for(self.options, atom) {
            Some(assertion) => Ok(self.tree.push(Node::Assertion(assertion))),
            None => {
                let item = self.tree.push_item(item_set(self.options, atom));
                self.quantified(s, item)
            }
        }
    }

    // The class whose members begin here, with the quantifier that may follow it.
    pub(super) fn class(&mut self, s: &[u8]) -> Result<usize, Fault>
        requires { Room s.now self.old 5 }
        ensures { SaidClass s.now self.old self.new result }
    {
        let c = class_at(s, self.at, self.options.caseless)?;
        self.at = c.place;
        let item = self.tree.push_item(c.set);
        self.quantified(s, item)
    }
}

// The assertion that `^` stands for, where the options are these.
fn caret(options: Options) -> Assertion
    ensures { result ≡ named (caret options) }
{
    if options.lines {
        return Assertion::LineStart;
    }
    Assertion::AtStart
}

// The assertion that `$` stands for, where the options are these.
fn dollar(options: Options) -> Assertion
    ensures { result ≡ named (dollar options) }
{
    if options.lines {
        return Assertion::LineEnd;
    }
    Assertion::AtLastLine
}

// The assertion that an atom stands for, where the options are these; none for an atom that takes a
// byte.
fn assertion_for(options: Options, atom: Atom) -> Option<Assertion>
    ensures { result ≡ in_code (assertion_for options atom) }
{
    match atom {
        Atom::Start => Some(Assertion::AtStart),
        Atom::LastLine => Some(Assertion::AtLastLine),
        Atom::End => Some(Assertion::AtEnd),
        Atom::Caret => Some(caret(options)),
        Atom::Dollar => Some(dollar(options)),
        Atom::WordEdge => Some(Assertion::WordEdge),
        Atom::NoWordEdge => Some(Assertion::NoWordEdge),
        _ => None,
    }
}

// How many copies more a quantifier allows; none stands for any number.
fn more(extra: u32) -> Option<u64>
    ensures { number_in result ≡ extra }
{
    if extra == CAP {
        return None;
    }
    Some(extra as u64)
}
