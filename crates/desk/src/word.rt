//! The word that numbers are claimed by. Each step on it gives one number, and what a seat drew is known to its token
//! alone, which is there for the proofs and takes no bytes.

ghost use Rattle.std.specs.Prelude.{◌≡◌, ◌-◌, [], IfOk, MatchOption};
ghost use Rattle.desk.specs.inner.Drawing.{CanBeDealt, CanDraw, DrawsNumber, HasDrawnAllBelow};
ghost use Rattle.desk.specs.inner.Drawing.{HasEveryPart, IsToldOver, IsTokenOf, fresh, merged};

use atomic_table::{Join, Play, Seat as TableSeat, Split, Table, TableRule};
use std::alloc::{AllocError, Global};
use std::collections::LinkedList;

/// What a token knows. No value of it is made.
pub struct WordTokenView {
    pub parts: u64,
    pub count: u64,
    pub drawn: LinkedList<u64>,
    pub over: bool,
}

/// How many numbers there are, and into how many parts the word is dealt.
#[derive(Clone, Copy)]
pub struct Size {
    pub count: u64,
    pub parts: u64,
}

pub struct Numbers;

impl TableRule<(), WordTokenView, Size> for Numbers {
    ghost use Rattle.desk.specs.inner.Drawing.{IsDrawn, fresh};

    ghost holds = { IsDrawn };

    ghost first = { λ size. fresh size.parts size.count };
}

pub struct Draw;

impl Play<(), WordTokenView> for Draw {
    ghost use Rattle.desk.specs.inner.Drawing.{Draws};

    ghost then = { Draws };
}

pub struct Total;

impl Play<(), WordTokenView> for Total {
    ghost use Rattle.desk.specs.inner.Drawing.{Totals};

    ghost then = { Totals };
}

pub struct DealWord;

impl Split<WordTokenView> for DealWord {
    ghost use Rattle.std.specs.Prelude.{◌-◌};
    ghost use Rattle.desk.specs.inner.Drawing.{fresh};

    ghost left = { λ v. fresh (v.parts - 1) v.count };

    ghost right = { λ v. fresh 1 v.count };
}

pub struct Merge;

impl Join<WordTokenView> for Merge {
    ghost use Rattle.desk.specs.inner.Drawing.{merged, fresh};

    ghost both = { merged };

    ghost spent = { fresh 0 0 };
}

pub type Word = Table<(), WordTokenView, Size, Numbers, Global>;

pub type Token = TableSeat<(), WordTokenView>;

/// The word, and a token with every part.
pub(crate) fn new_word(alloc: Global, size: Size) -> Result<(Word, Token), AllocError>
    ensures word { IfOk result (λ made. (made.0.shared.table_id.words ≡ 1) × (made.0.shared.key ≡ size)) }
    ensures token { IfOk result (λ made. (made.1.table_id ≡ made.0.shared.table_id) × (made.1.me ≡ (fresh size.parts size.count, []))) }
{
    Table::of_words(alloc, &[0], &size)
}

/// Splits one part off a token that nothing was drawn with.
pub(crate) fn deal_part(word: &Word, token: &mut Token) -> Token
    requires { CanBeDealt word.now.shared.table_id token.old.table_id token.old.me }
    ensures left { (token.new.me ≡ (fresh (token.old.me.0.parts - 1) token.old.me.0.count, [])) × (token.new.table_id ≡ token.old.table_id) }
    ensures part { (result.me ≡ (fresh 1 token.old.me.0.count, [])) × (result.table_id ≡ token.old.table_id) }
{
    word.shared.split_seat::<DealWord>(token)
}

/// Draws a number by one step, and waits for nobody.
pub(crate) fn draw_number(word: &Word, token: &mut Token, count: u64) -> Option<u64>
    requires { CanDraw word.now.shared.table_id token.old.table_id word.now.shared.key token.old.me count }
    ensures draw { MatchOption result (IsToldOver token.old.me token.new.me)
        (λ number. DrawsNumber token.old.me number count token.new.me) }
    ensures table { token.new.table_id ≡ token.old.table_id }
{
    let number = word.shared.fetch_add::<Draw>(token, 0, 1);
    if number < count { Some(number) } else { None }
}

/// Puts two tokens together.
pub(crate) fn merge_token(word: &Word, token: &mut Token, other: Token)
    requires token { IsTokenOf word.now.shared.table_id token.old.table_id token.old.me }
    requires other { IsTokenOf word.now.shared.table_id other.table_id other.me }
    ensures { (token.new.me ≡ (merged token.old.me.0 other.me.0, [])) × (token.new.table_id ≡ token.old.table_id) }
{
    word.shared.join_seat::<Merge>(token, other);
}

/// Who has every part knows which numbers were drawn: those below some number, each once.
pub(crate) fn count_all(word: &Word, token: &mut Token)
    requires { HasEveryPart word.now.shared.table_id token.old.table_id word.now.shared.key token.old.me }
    ensures { HasDrawnAllBelow token.old.me.0 }
{
    word.shared.load::<Total>(token, 0);
}
