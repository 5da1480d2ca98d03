// The table of second bytes, the first bytes of loops, and what is looked up.
ghost use Rattle.std.specs.Prelude.{◌≡◌, ◌≤◌, get_or};
ghost use Rattle.codec.specs.Opcodes.{form_of_first, form_for};
ghost use Rattle.codec.specs.Table.{form_of};

use crate::fields::VALUES;
use crate::forms::{
    ABSENT, ADD, DECREMENT, EMMS, EXTRACT, FENCE, FORM, INSERT, JUMP, LANE, LOAD_D, LOAD_Q, LOW,
    MASKED, PREFETCH, SET, SHIFT_Q, SHIFT_WD, SHUFFLE, SIZE, STORE_D, STORE_Q, STREAM, SUFFIXED,
    TOP_BITS, USUAL,
};
use crate::prefixes::ESCAPE;

// The entry of a second byte, in a table that is lent.
pub(crate) fn entry_in(table: &[u32; 256], second: u8) -> u32
    ensures { result ≡ get_or table.now second 0 }
{
    table[second as usize]
}

// The first bytes of loops: ADD's, JNZ's, and MOV's and DEC's without their last three bits, which name a register. They are numbers and no enum: a
// byte is compared with them.
const ADD_BYTE: u8 = 0x83;

const JUMP_IF_NOT_ZERO: u8 = 0x75;

const MOVES: u8 = 0xb8 / VALUES;

const DECREMENTS: u8 = 0x48 / VALUES;

// The form of a first byte other than 0F. (MOV's and DEC's are told by a division, which is one for both: as ranges of bytes each takes five
// instructions of the processor more.)
#[tactic(auto, using(crate::proofs::Entries::first_forms))]
pub(crate) fn first_form(first: u8) -> u32
    ensures { (result ≡ (form_of_first first).number) × (result ≤ 13) }
{
    match first / VALUES {
        MOVES => SET,
        DECREMENTS => DECREMENT,
        _ => match first {
            ADD_BYTE => ADD,
            JUMP_IF_NOT_ZERO => JUMP,
            _ => ABSENT,
        },
    }
}

// The form of both opcode bytes, of the second by our table.
#[tactic(auto, using(crate::proofs::Entries::form_of_both), unfolding(crate::specs::Table::opcode_table, crate::specs::Opcodes::form_at, crate::specs::Opcodes::operation_at))]
pub(crate) fn form_for(first: u8, second: u8) -> u32
    ensures { form_of result ≡ form_for first second }
{
    if first == ESCAPE {
        return TABLE[second as usize] / FORM;
    }
    first_form(first)
}

// The form and the size of the operand in memory.
const STORE_DOUBLEWORD: u32 = STORE_D * FORM + 4 * SIZE;

const LOAD_DOUBLEWORD: u32 = LOAD_D * FORM + 4 * SIZE;

const STORE_QUADWORD: u32 = STORE_Q * FORM + 8 * SIZE;

const LOAD_QUADWORD: u32 = LOAD_Q * FORM + 8 * SIZE;

const WITH_DOUBLEWORD: u32 = LOW * FORM + 4 * SIZE;

const WITH_QUADWORD: u32 = USUAL * FORM + 8 * SIZE;

// The form of the shifts by an immediate, which have no operand in memory.
const SHIFT: u32 = SHIFT_WD * FORM;

const SHIFT_QUADWORD: u32 = SHIFT_Q * FORM;

// The forms of manual 000, with the size of the operand in memory, if there is one.
const EXTRACT_WORD: u32 = EXTRACT * FORM;

const INSERT_WORD: u32 = INSERT * FORM + 2 * SIZE;

const SHUFFLE_WORDS: u32 = SHUFFLE * FORM + 8 * SIZE;

const MOVE_TOP_BITS: u32 = TOP_BITS * FORM;

const STORE_MASKED: u32 = MASKED * FORM + 8 * SIZE;

const STORE_STREAM: u32 = STREAM * FORM + 8 * SIZE;

// The lane width.
const BYTES: u32 = 8 * LANE;

const WORDS: u32 = 16 * LANE;

const DOUBLEWORDS: u32 = 32 * LANE;

const WHOLE: u32 = 64 * LANE;

// Whole entries: EMMS, the prefetches, SFENCE, 3DNow, and a byte that the table has not.
const ALONE: u32 = EMMS * FORM + WHOLE + lanes::KEEP as u32;

const PREFETCH_BYTE: u32 = PREFETCH * FORM + SIZE + WHOLE + lanes::KEEP as u32;

const STORE_FENCE: u32 = FENCE * FORM + WHOLE + lanes::KEEP as u32;

const SUFFIX: u32 = SUFFIXED * FORM + 8 * SIZE + WHOLE + lanes::KEEP as u32;

const NONE: u32 = ABSENT * FORM + WHOLE + lanes::KEEP as u32;

// The entries by the second byte.
pub(crate) const TABLE: [u32; 256] = [
    NONE,
    NONE,
    NONE,
    NONE,
    NONE,
    NONE,
    NONE,
    NONE,
    NONE,
    NONE,
    NONE,
    NONE,
    NONE,
    NONE,
    NONE,
    SUFFIX, // 0f: 3DNow
    NONE,
    NONE,
    NONE,
    NONE,
    NONE,
    NONE,
    NONE,
    NONE,
    PREFETCH_BYTE, // 18: the prefetches
    NONE,
    NONE,
    NONE,
    NONE,
    NONE,
    NONE,
    NONE,
    NONE,
    NONE,
    NONE,
    NONE,
    NONE,
    NONE,
    NONE,
    NONE,
    NONE,
    NONE,
    NONE,
    NONE,
    NONE,
    NONE,
    NONE,
    NONE,
    NONE,
    NONE,
    NONE,
    NONE,
    NONE,
    NONE,
    NONE,
    NONE,
    NONE,
    NONE,
    NONE,
    NONE,
    NONE,
    NONE,
    NONE,
    NONE,
    NONE,
    NONE,
    NONE,
    NONE,
    NONE,
    NONE,
    NONE,
    NONE,
    NONE,
    NONE,
    NONE,
    NONE,
    NONE,
    NONE,
    NONE,
    NONE,
    NONE,
    NONE,
    NONE,
    NONE,
    NONE,
    NONE,
    NONE,
    NONE,
    NONE,
    NONE,
    NONE,
    NONE,
    NONE,
    NONE,
    NONE,
    NONE,
    WITH_DOUBLEWORD + BYTES + lanes::PUNPCKLBW as u32, // 60
    WITH_DOUBLEWORD + WORDS + lanes::PUNPCKLWD as u32, // 61
    WITH_DOUBLEWORD + DOUBLEWORDS + lanes::PUNPCKLDQ as u32, // 62
    WITH_QUADWORD + BYTES + lanes::PACKSSWB as u32, // 63
    WITH_QUADWORD + BYTES + lanes::PCMPGTB as u32, // 64
    WITH_QUADWORD + WORDS + lanes::PCMPGTW as u32, // 65
    WITH_QUADWORD + DOUBLEWORDS + lanes::PCMPGTD as u32, // 66
    WITH_QUADWORD + BYTES + lanes::PACKUSWB as u32, // 67
    WITH_QUADWORD + BYTES + lanes::PUNPCKHBW as u32, // 68
    WITH_QUADWORD + WORDS + lanes::PUNPCKHWD as u32, // 69
    WITH_QUADWORD + DOUBLEWORDS + lanes::PUNPCKHDQ as u32, // 6a
    WITH_QUADWORD + WORDS + lanes::PACKSSDW as u32, // 6b
    NONE,
    NONE,
    LOAD_DOUBLEWORD + WHOLE + lanes::MOVE as u32, // 6e: MOVD to MMX
    LOAD_QUADWORD + WHOLE + lanes::MOVE as u32, // 6f: MOVQ, load form
    SHUFFLE_WORDS + WORDS + lanes::PSHUFW as u32, // 70
    SHIFT + WORDS + lanes::PSRLW as u32, // 71 /2; /4 and /6 by the digit
    SHIFT + DOUBLEWORDS + lanes::PSRLD as u32, // 72 /2; /4 and /6 by the digit
    SHIFT_QUADWORD + WHOLE + lanes::PSRLQ as u32, // 73 /2; /6 by the digit
    WITH_QUADWORD + BYTES + lanes::PCMPEQB as u32, // 74
    WITH_QUADWORD + WORDS + lanes::PCMPEQW as u32, // 75
    WITH_QUADWORD + DOUBLEWORDS + lanes::PCMPEQD as u32, // 76
    ALONE, // 77: EMMS
    NONE,
    NONE,
    NONE,
    NONE,
    NONE,
    NONE,
    STORE_DOUBLEWORD + WHOLE + lanes::MOVE as u32, // 7e: MOVD from MMX
    STORE_QUADWORD + WHOLE + lanes::MOVE as u32, // 7f: MOVQ, store form
    NONE,
    NONE,
    NONE,
    NONE,
    NONE,
    NONE,
    NONE,
    NONE,
    NONE,
    NONE,
    NONE,
    NONE,
    NONE,
    NONE,
    NONE,
    NONE,
    NONE,
    NONE,
    NONE,
    NONE,
    NONE,
    NONE,
    NONE,
    NONE,
    NONE,
    NONE,
    NONE,
    NONE,
    NONE,
    NONE,
    NONE,
    NONE,
    NONE,
    NONE,
    NONE,
    NONE,
    NONE,
    NONE,
    NONE,
    NONE,
    NONE,
    NONE,
    NONE,
    NONE,
    NONE,
    NONE,
    STORE_FENCE, // ae: SFENCE
    NONE,
    NONE,
    NONE,
    NONE,
    NONE,
    NONE,
    NONE,
    NONE,
    NONE,
    NONE,
    NONE,
    NONE,
    NONE,
    NONE,
    NONE,
    NONE,
    NONE,
    NONE,
    NONE,
    NONE,
    NONE,
    INSERT_WORD + WORDS + lanes::PINSRW as u32, // c4
    EXTRACT_WORD + WORDS + lanes::PEXTRW as u32, // c5
    NONE,
    NONE,
    NONE,
    NONE,
    NONE,
    NONE,
    NONE,
    NONE,
    NONE,
    NONE,
    NONE,
    WITH_QUADWORD + WORDS + lanes::PSRLW as u32, // d1
    WITH_QUADWORD + DOUBLEWORDS + lanes::PSRLD as u32, // d2
    WITH_QUADWORD + WHOLE + lanes::PSRLQ as u32, // d3
    NONE,
    WITH_QUADWORD + WORDS + lanes::PMULLW as u32, // d5
    NONE,
    MOVE_TOP_BITS + BYTES + lanes::PMOVMSKB as u32, // d7
    WITH_QUADWORD + BYTES + lanes::PSUBUSB as u32, // d8
    WITH_QUADWORD + WORDS + lanes::PSUBUSW as u32, // d9
    WITH_QUADWORD + BYTES + lanes::PMINUB as u32, // da
    WITH_QUADWORD + WHOLE + lanes::PAND as u32, // db
    WITH_QUADWORD + BYTES + lanes::PADDUSB as u32, // dc
    WITH_QUADWORD + WORDS + lanes::PADDUSW as u32, // dd
    WITH_QUADWORD + BYTES + lanes::PMAXUB as u32, // de
    WITH_QUADWORD + WHOLE + lanes::PANDN as u32, // df
    WITH_QUADWORD + BYTES + lanes::PAVGB as u32, // e0
    WITH_QUADWORD + WORDS + lanes::PSRAW as u32, // e1
    WITH_QUADWORD + DOUBLEWORDS + lanes::PSRAD as u32, // e2
    WITH_QUADWORD + WORDS + lanes::PAVGW as u32, // e3
    WITH_QUADWORD + WORDS + lanes::PMULHUW as u32, // e4
    WITH_QUADWORD + WORDS + lanes::PMULHW as u32, // e5
    NONE,
    STORE_STREAM + WHOLE + lanes::MOVE as u32, // e7: MOVNTQ
    WITH_QUADWORD + BYTES + lanes::PSUBSB as u32, // e8
    WITH_QUADWORD + WORDS + lanes::PSUBSW as u32, // e9
    WITH_QUADWORD + WORDS + lanes::PMINSW as u32, // ea
    WITH_QUADWORD + WHOLE + lanes::POR as u32, // eb
    WITH_QUADWORD + BYTES + lanes::PADDSB as u32, // ec
    WITH_QUADWORD + WORDS + lanes::PADDSW as u32, // ed
    WITH_QUADWORD + WORDS + lanes::PMAXSW as u32, // ee
    WITH_QUADWORD + WHOLE + lanes::PXOR as u32, // ef
    NONE,
    WITH_QUADWORD + WORDS + lanes::PSLLW as u32, // f1
    WITH_QUADWORD + DOUBLEWORDS + lanes::PSLLD as u32, // f2
    WITH_QUADWORD + WHOLE + lanes::PSLLQ as u32, // f3
    NONE,
    WITH_QUADWORD + DOUBLEWORDS + lanes::PMADDWD as u32, // f5
    WITH_QUADWORD + BYTES + lanes::PSADBW as u32, // f6
    STORE_MASKED + BYTES + lanes::MASKMOVQ as u32, // f7
    WITH_QUADWORD + BYTES + lanes::PSUBB as u32, // f8
    WITH_QUADWORD + WORDS + lanes::PSUBW as u32, // f9
    WITH_QUADWORD + DOUBLEWORDS + lanes::PSUBD as u32, // fa
    NONE,
    WITH_QUADWORD + BYTES + lanes::PADDB as u32, // fc
    WITH_QUADWORD + WORDS + lanes::PADDW as u32, // fd
    WITH_QUADWORD + DOUBLEWORDS + lanes::PADDD as u32, // fe
    NONE,
];
