//! Lists with commas, of any kind of item.
#![tactic(auto, unfolding(sim_tree::specs::Grammar::is))]

ghost use Rattle.std.specs.Prelude.{◌≡◌, ◌<◌, ℕ, length};
ghost use Rattle.sim_tree.specs.Grammar.{Part, Symbol};
ghost use Rattle.sim_tree.specs.Reading.{Forest};
ghost use Rattle.sim_parser.specs.CommaLists.{GivesItems, IsFurther, IsReader, ReadsEach};

use sim_base::TokenKind;
use sim_expr_parser::{Source, Stop, add};

/// The items at a token, at least one, with commas between them, and the index after them.
pub fn comma_list<T: Drop, F: Fn(usize) -> Result<(T, usize), Stop>>(
    source: &Source,
    start: usize,
    item_at: F,
) -> Result<(Vec<T>, usize), Stop>
    requires within { start < length source.now }
    requires reader { IsReader source.now (F.pre item_at) (F.post item_at) }
    ensures { (d : ℕ) (item : Symbol) (next : Part) (view : T → Forest → Forest) → IsFurther item next → ReadsEach source.now d item view (F.post item_at) → GivesItems source.now d item next start view result }
{
    let mut list = Vec::new(source.allocator());
    let (first, mut at) = item_at(start)?;
    add(&mut list, first)?;
    while let Some(next) = source.eat(at, TokenKind::Comma) {
        let (item, end) = item_at(next)?;
        add(&mut list, item)?;
        at = end;
    }
    Ok((list, at))
}
