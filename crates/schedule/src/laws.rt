//! What the words are, and that the choices are those of what a scenario stands for.

ghost use Rattle.std.specs.Prelude.{◌≡◌, ◌+◌, ℕ, List};
ghost use Rattle.cores.specs.Cores.{Core};
ghost use Rattle.machine.specs.Machine.{State};
ghost use Rattle.tables.specs.Tables.{Tables};
ghost use Rattle.rand_pcg.specs.Lcg.{next};
ghost use Rattle.rand_pcg.specs.Pcg.{multiplier_64};
ghost use Rattle.scenario.specs.Alike.{Alike};
ghost use Rattle.scenario.specs.Tree.{Tree};
ghost use Rattle.schedule.specs.Choices.{choices_of};
ghost use Rattle.schedule.specs.Words.{dice, dice_after, word};

/// Dice begin before word 0, and each draw leads to the word behind it.
pub fn draws_follow_the_words()
    ensures first { (seed stream : ℕ) → dice_after seed stream 0 ≡ dice seed stream }
    ensures next { (seed stream k : ℕ) → next 64 multiplier_64 (dice_after seed stream k) ≡ dice_after seed stream (k + 1) }
{}

/// The first six words of seed 42 on stream 54, as the generator's authors give them.
pub fn first_words()
    ensures { (word 42 54 0 ≡ 0xa15c02b7) × (word 42 54 1 ≡ 0x7b47f409) × (word 42 54 2 ≡ 0xba1d3330)
        × (word 42 54 3 ≡ 0x83d2f293) × (word 42 54 4 ≡ 0xbfa4784b) × (word 42 54 5 ≡ 0xcbed606e) }
{}

/// Alike scenarios give the same choices.
pub fn alike_trees_give_the_same_choices()
    ensures { (tables : Tables) (state : State) (cores : List Core) (s t : Tree) → Alike s t →
        choices_of tables state cores s ≡ choices_of tables state cores t }
{}
