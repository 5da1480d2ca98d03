// The control marks, by the one refusal that they give, and the table that goes with it.
ghost use Rattle.std.specs.Prelude.{◌≡◌};
ghost use Rattle.works.specs.Bars.{number_in, barred_by, open_table};

use manual::Marks;
use refusals::Refusal;

// The refusal of the control marks, EM before TS before pending, if they refuse.
#[tactic(auto, unfolding(crate::specs::Bars::barred_by))]
pub fn barred(marks: Marks) -> Option<Refusal>
    ensures { number_in result ≡ barred_by marks }
{
    if marks.em {
        Some(Refusal::InvalidOpcode)
    } else if marks.ts {
        Some(Refusal::NotAvailable)
    } else if marks.pending {
        Some(Refusal::IsPending)
    } else {
        None
    }
}

// Our table, or under control marks that refuse (their refusal's number, or 0) one without entries, so that no instruction has to ask for the marks.
#[tactic(auto, unfolding(crate::specs::Bars::open_table))]
pub fn table(bar: u8) -> [u32; 256]
    ensures { result ≡ open_table bar }
{
    if bar == 0 {
        return codec::table();
    }
    [0u32; 256]
}
