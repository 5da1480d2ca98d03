// The ways that instructions go, by the numbers of their forms: sorted here for the step and for the footprint.
ghost use Rattle.std.specs.Prelude.{◌≡◌};
ghost use Rattle.machine.specs.inner.Ways.{is_unstopped, is_integer, has_other, way_of, suffix_way};

use codec::forms::{
    EMMS, EXTRACT, FENCE, INSERT, LOAD_D, LOAD_Q, MASKED, PREFETCH, SHIFT_Q, SHIFT_WD, SHUFFLE,
    STORE_D, STORE_Q, STREAM, SUFFIXED, TOP_BITS,
};
use codec::suffixes::{PF2IW, PI2FW, PSWAPD};

// The tag mark is set empty; nothing is touched; a register is shifted by an immediate; a part of an MMX register goes to an integer register; an MMX
// register is stored in the operand of r/m, loaded from it, or computed with it, or a suffix says which; a word of it is inserted, or its words are
// shuffled; or an MMX register is stored in memory at EDI under a mask.
#[derive(Clone, Copy)]
pub(crate) enum Way {
    Empties,
    Passes,
    Shifts,
    Extracts,
    Stores,
    Loads,
    Computes,
    Suffixes,
    Inserts,
    Shuffles,
    Masks,
}

#[tactic(auto, using(crate::proofs::laws::ways::Numbering::way_rules))]
pub(crate) fn way_of(form: u32) -> Way
    ensures { result ≡ way_of form }
{
    match form {
        ..=EMMS => Way::Empties,
        SHIFT_WD | SHIFT_Q => Way::Shifts,
        INSERT => Way::Inserts,
        SHUFFLE => Way::Shuffles,
        EXTRACT | TOP_BITS => Way::Extracts,
        MASKED => Way::Masks,
        FENCE..=PREFETCH => Way::Passes,
        STREAM | STORE_D | STORE_Q => Way::Stores,
        LOAD_D | LOAD_Q => Way::Loads,
        SUFFIXED => Way::Suffixes,
        _ => Way::Computes,
    }
}

// The way that an instruction goes by its suffix: PF2IW, PI2FW and PSWAPD don't read their destination.
#[tactic(auto, using(crate::proofs::laws::ways::Numbering::way_rules))]
pub(crate) fn suffix_way(suffix: u32) -> Way
    ensures { result ≡ suffix_way suffix }
{
    match suffix {
        PF2IW | PI2FW | PSWAPD => Way::Loads,
        _ => Way::Computes,
    }
}

// Whether an operand may be in memory, and is touched.
pub(crate) fn has_other(way: Way) -> bool
    ensures { result ≡ has_other way }
{
    match way {
        Way::Empties | Way::Passes | Way::Shifts | Way::Extracts => false,
        Way::Stores
        | Way::Loads
        | Way::Computes
        | Way::Suffixes
        | Way::Inserts
        | Way::Shuffles
        | Way::Masks => true,
    }
}

// Whether the control marks don't stop a form: SFENCE, those of loops, and the prefetches.
#[tactic(auto, using(crate::proofs::laws::ways::Numbering::way_rules))]
pub(crate) fn is_unstopped(form: u32) -> bool
    ensures { result ≡ is_unstopped form }
{
    FENCE <= form && form <= PREFETCH
}

// Whether r/m names an integer register at mod 11: for PINSRW and MOVD.
#[tactic(auto, using(crate::proofs::laws::ways::Numbering::way_rules))]
pub(crate) fn is_integer(form: u32) -> bool
    ensures { result ≡ is_integer form }
{
    matches!(form, INSERT | STORE_D | LOAD_D)
}
