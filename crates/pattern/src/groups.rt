// Groups are read by recursion: branches, a sequence and an item call one another with the unread
// length falling. Each writes the nodes of what it has read, children first, and gives the number
// of the last.
ghost use Rattle.std.specs.Prelude.{◌≤◌};
ghost use Rattle.pattern.specs.Invariants.{Room, Here, SaidBranches, SaidSequence, SaidItem};

use crate::items::Parser;
use atoms::peek;
use nodes::layout::Node;
use refusals::{Fault, Refusal};
use tokens::{Token, token_at};

impl Parser {
    // The branches of a group or of the pattern, up to its end.
    #[cycle(branches_item_sequence)]
    pub(super) fn branches(&mut self, s: &[u8], depth: usize) -> Result<usize, Fault>
        requires room { Room s.now self.old 1 }
        requires depth_bound { depth ≤ 16 }
        ensures { SaidBranches s.now self.old self.new depth result }
    {
        let g = self.sequence(s, depth)?;
        if peek(s, self.at) != b'|' {
            return Ok(g);
        }
        self.at += 1;
        let h = self.branches(s, depth)?;
        Ok(self.tree.push(Node::Or(g, h)))
    }

    // One branch, up to its end: items one after the other, option settings, comments and quotes'
    // marks.
    #[cycle(branches_item_sequence)]
    fn sequence(&mut self, s: &[u8], depth: usize) -> Result<usize, Fault>
        requires room { Room s.now self.old 1 }
        requires depth_bound { depth ≤ 16 }
        ensures { SaidSequence s.now self.old self.new depth result }
    {
        let l = token_at(s, self.at, self.options);
        let token = match l.token {
            Ok(token) => token,
            Err(refusal) => {
                return Err(Fault {
                    refusal,
                    place: self.at,
                });
            }
        };
        match token {
            Token::Finish | Token::Bar | Token::Close => Ok(self.tree.push(Node::Empty)),
            Token::Set(after) | Token::Note(after) => {
                self.at += l.size;
                self.options = after;
                self.sequence(s, depth)
            }
            Token::Unclosed => Err(Fault {
                refusal: Refusal::BadGroup,
                place: s.len(),
            }),
            _ => {
                let g = self.item(s, depth, l.size, token)?;
                let h = self.sequence(s, depth)?;
                Ok(self.tree.push(Node::Then(g, h)))
            }
        }
    }

    // One item or group with its quantifier, or one assertion: what the token at this place, of so
    // many bytes, begins.
    #[cycle(branches_item_sequence)]
    fn item(&mut self, s: &[u8], depth: usize, size: usize, token: Token) -> Result<usize, Fault>
        requires room { Room s.now self.old 0 }
        requires depth_bound { depth ≤ 16 }
        requires here { Here s.now self.old.at self.old.options size token }
        ensures { SaidItem s.now self.old self.new depth result }
    {
        match token {
            Token::One(atom) => {
                self.at += size;
                self.single(s, atom)
            }
            // a quantifier has nothing to repeat here
            Token::Repeat(_) => Err(Fault {
                refusal: Refusal::BadQuantifier,
                place: self.at,
            }),
            Token::Open(inside) => {
                if depth == 16 {
                    return Err(Fault {
                        refusal: Refusal::DeepGroup,
                        place: self.at,
                    });
                }
                let outside = self.options;
                self.at += size;
                self.options = inside;
                let g = self.branches(s, depth + 1)?;
                if self.at == s.len() {
                    return Err(Fault {
                        refusal: Refusal::BadGroup,
                        place: self.at,
                    });
                }
                self.at += 1;
                self.options = outside;
                self.quantified(s, g)
            }
            _ => {
                self.at += 1;
                self.class(s)
            }
        }
    }
}
