// The row that an opcode word takes: by its line, and then by the line's rows in the order of the definition's table, those with more
// fixed bits first. The rows stand in the code as cases, for a constant table is built on the stack again at each look into it. A table
// of rows by the word's top ten bits, which is lent, may stand before them. A row is a number and no enum: a line's `instruction` takes
// every u8, and a number that is no row goes where line 0's go (Step.of_row).
#![tactic(auto, unfolding(crate::specs::Top::row_by, crate::specs::Top::top_of, crate::specs::Top::top_rows, instructions::specs::Rows::row_of))]

mod table;

ghost use Rattle.std.specs.Prelude.{◌≡◌};
ghost use Rattle.instructions.specs.Rows.{row_of};
ghost use Rattle.rows.specs.RowLaws.{Within};
ghost use Rattle.rows.specs.Top.{top_rows, row_by};

// ---- the rows by their numbers: tools/row-table makes this part from the definition's table

pub const BITREV: u8 = 0;

pub const BYTEREV: u8 = 1;

pub const FF1: u8 = 2;

pub const ORI: u8 = 3;

pub const ANDI: u8 = 4;

pub const SUBI: u8 = 5;

pub const ADDI: u8 = 6;

pub const EORI: u8 = 7;

pub const CMPI_B: u8 = 8;

pub const CMPI_W: u8 = 9;

pub const CMPI_L: u8 = 10;

pub const BITOP_IMM: u8 = 11;

pub const BITOP_DN: u8 = 12;

pub const ILL_0: u8 = 13;

pub const MOVEA_B: u8 = 14;

pub const MOVE_B: u8 = 15;

pub const MOVEA_L: u8 = 16;

pub const MOVE_L: u8 = 17;

pub const MOVEA_W: u8 = 18;

pub const MOVE_W: u8 = 19;

pub const NOP: u8 = 20;

pub const STOP: u8 = 21;

pub const RTE: u8 = 22;

pub const RTS: u8 = 23;

pub const MOVEC_READ: u8 = 24;

pub const MOVEC_WRITE: u8 = 25;

pub const HALT: u8 = 26;

pub const PULSE: u8 = 27;

pub const ILLEGAL: u8 = 28;

pub const STLDSR: u8 = 29;

pub const EXTB: u8 = 30;

pub const LINK: u8 = 31;

pub const UNLK: u8 = 32;

pub const TO_USP: u8 = 33;

pub const FROM_USP: u8 = 34;

pub const FROM_CCR: u8 = 35;

pub const SWAP: u8 = 36;

pub const EXT_W: u8 = 37;

pub const EXT_L: u8 = 38;

pub const SATS: u8 = 39;

pub const NEGX: u8 = 40;

pub const NEG: u8 = 41;

pub const NOT: u8 = 42;

pub const TRAP: u8 = 43;

pub const JSR: u8 = 44;

pub const JMP: u8 = 45;

pub const FROM_SR: u8 = 46;

pub const ILL_42C0: u8 = 47;

pub const TO_CCR: u8 = 48;

pub const TO_SR: u8 = 49;

pub const PEA: u8 = 50;

pub const MOVEM_STORE: u8 = 51;

pub const MOVEM_LOAD: u8 = 52;

pub const MUL_L: u8 = 53;

pub const DIV_L: u8 = 54;

pub const TAS: u8 = 55;

pub const CLR: u8 = 56;

pub const TST: u8 = 57;

pub const LEA: u8 = 58;

pub const ILL_4: u8 = 59;

pub const TPF_W: u8 = 60;

pub const TPF_L: u8 = 61;

pub const TPF: u8 = 62;

pub const ADDQ_AN_B: u8 = 63;

pub const ADDQ_AN_W: u8 = 64;

pub const ADDQ_AN_L: u8 = 65;

pub const SCC: u8 = 66;

pub const ILL_50C0: u8 = 67;

pub const ADDQ: u8 = 68;

pub const BRA: u8 = 69;

pub const BSR: u8 = 70;

pub const BCC: u8 = 71;

pub const MVS: u8 = 72;

pub const MVZ: u8 = 73;

pub const MOVEQ: u8 = 74;

pub const DIVU_W: u8 = 75;

pub const DIVS_W: u8 = 76;

pub const OR_DN: u8 = 77;

pub const OR_MEM: u8 = 78;

pub const SUBX_B: u8 = 79;

pub const SUBX_W: u8 = 80;

pub const SUBX_L: u8 = 81;

pub const SUB_ILL_B: u8 = 82;

pub const SUB_ILL_W: u8 = 83;

pub const SUB_ILL_L: u8 = 84;

pub const SUBA_W: u8 = 85;

pub const SUBA_L: u8 = 86;

pub const SUB_DN: u8 = 87;

pub const SUB_MEM: u8 = 88;

pub const MACSR_CCR: u8 = 89;

pub const COPY_ACC: u8 = 90;

pub const READ_MACSR: u8 = 91;

pub const READ_MASK: u8 = 92;

pub const READ_ACCEXT: u8 = 93;

pub const WRITE_MACSR: u8 = 94;

pub const WRITE_MASK: u8 = 95;

pub const READ_ACC: u8 = 96;

pub const WRITE_ACCEXT: u8 = 97;

pub const WRITE_ACC: u8 = 98;

pub const MOV3Q: u8 = 99;

pub const MAC: u8 = 100;

pub const LINEA: u8 = 101;

pub const CMPA_W: u8 = 102;

pub const CMPA_L: u8 = 103;

pub const CMP: u8 = 104;

pub const EOR: u8 = 105;

pub const MULU_W: u8 = 106;

pub const MULS_W: u8 = 107;

pub const AND_DN: u8 = 108;

pub const AND_MEM: u8 = 109;

pub const ADDX_B: u8 = 110;

pub const ADDX_W: u8 = 111;

pub const ADDX_L: u8 = 112;

pub const ADD_ILL_B: u8 = 113;

pub const ADD_ILL_W: u8 = 114;

pub const ADD_ILL_L: u8 = 115;

pub const ADDA_W: u8 = 116;

pub const ADDA_L: u8 = 117;

pub const ADD_DN: u8 = 118;

pub const ADD_MEM: u8 = 119;

pub const ASX: u8 = 120;

pub const LSX: u8 = 121;

pub const ILL_E: u8 = 122;

pub const WDEBUG: u8 = 123;

pub const CACHE: u8 = 124;

pub const WDDATA: u8 = 125;

pub const LINEF: u8 = 126;

pub const ROW_COUNT: u8 = 127;

// ---- the end of that part

// What a table has in place of a row.
pub const UNSETTLED: u8 = ROW_COUNT;

// A line's function is given a word of that line. One that is named for fixed bits too, as `line_4_fff8`, is given a word that none of the
// line's rows before those takes.
fn line_0(w: u32) -> u8
    requires { Within 0 0 w }
    ensures { result ≡ row_of w }
{
    match w & 0xFFF8 {
        0x00C0 => BITREV,
        0x02C0 => BYTEREV,
        0x04C0 => FF1,
        0x0080 => ORI,
        0x0280 => ANDI,
        0x0480 => SUBI,
        0x0680 => ADDI,
        0x0A80 => EORI,
        0x0C00 => CMPI_B,
        0x0C40 => CMPI_W,
        0x0C80 => CMPI_L,
        _ => line_0_ff00(w),
    }
}

fn line_0_ff00(w: u32) -> u8
    requires { Within 0 11 w }
    ensures { result ≡ row_of w }
{
    if w & 0xFF00 == 0x0800 {
        return BITOP_IMM;
    }
    if w & 0xF100 == 0x0100 {
        return BITOP_DN;
    }
    ILL_0
}

fn line_1(w: u32) -> u8
    requires { Within 1 0 w }
    ensures { result ≡ row_of w }
{
    if w & 0xF1C0 == 0x1040 {
        return MOVEA_B;
    }
    MOVE_B
}

fn line_2(w: u32) -> u8
    requires { Within 2 0 w }
    ensures { result ≡ row_of w }
{
    if w & 0xF1C0 == 0x2040 {
        return MOVEA_L;
    }
    MOVE_L
}

fn line_3(w: u32) -> u8
    requires { Within 3 0 w }
    ensures { result ≡ row_of w }
{
    if w & 0xF1C0 == 0x3040 {
        return MOVEA_W;
    }
    MOVE_W
}

fn line_4(w: u32) -> u8
    requires { Within 4 0 w }
    ensures { result ≡ row_of w }
{
    // LEA first, for it is frequent: of the rows before it only EXTB can fit beside it.
    if w & 0xF1C0 == 0x41C0 {
        if w & 0xFFF8 == 0x49C0 {
            return EXTB;
        }
        return LEA;
    }
    match w & 0xFFFF {
        0x4E71 => NOP,
        0x4E72 => STOP,
        0x4E73 => RTE,
        0x4E75 => RTS,
        0x4E7A => MOVEC_READ,
        0x4E7B => MOVEC_WRITE,
        0x4AC8 => HALT,
        0x4ACC => PULSE,
        0x4AFC => ILLEGAL,
        0x40E7 => STLDSR,
        _ => line_4_fff8(w),
    }
}

fn line_4_fff8(w: u32) -> u8
    requires { Within 4 10 w }
    ensures { result ≡ row_of w }
{
    match w & 0xFFF8 {
        0x49C0 => EXTB,
        0x4E50 => LINK,
        0x4E58 => UNLK,
        0x4E60 => TO_USP,
        0x4E68 => FROM_USP,
        0x42C0 => FROM_CCR,
        0x4840 => SWAP,
        0x4880 => EXT_W,
        0x48C0 => EXT_L,
        0x4C80 => SATS,
        0x4080 => NEGX,
        0x4480 => NEG,
        0x4680 => NOT,
        _ => line_4_fff0(w),
    }
}

fn line_4_fff0(w: u32) -> u8
    requires { Within 4 23 w }
    ensures { result ≡ row_of w }
{
    if w & 0xFFF0 == 0x4E40 {
        return TRAP;
    }
    match w & 0xFFC0 {
        0x4E80 => JSR,
        0x4EC0 => JMP,
        0x40C0 => FROM_SR,
        0x42C0 => ILL_42C0,
        0x44C0 => TO_CCR,
        0x46C0 => TO_SR,
        0x4840 => PEA,
        0x48C0 => MOVEM_STORE,
        0x4CC0 => MOVEM_LOAD,
        0x4C00 => MUL_L,
        0x4C40 => DIV_L,
        0x4AC0 => TAS,
        _ => line_4_ff00(w),
    }
}

fn line_4_ff00(w: u32) -> u8
    requires { Within 4 36 w }
    ensures { result ≡ row_of w }
{
    if w & 0xFF00 == 0x4200 {
        return CLR;
    }
    if w & 0xFF00 == 0x4A00 {
        return TST;
    }
    if w & 0xF1C0 == 0x41C0 {
        return LEA;
    }
    ILL_4
}

fn line_5(w: u32) -> u8
    requires { Within 5 0 w }
    ensures { result ≡ row_of w }
{
    // A long in Dn first, for it is frequent: none of the rows before ADDQ fits it.
    if w & 0xF0F8 == 0x5080 {
        return ADDQ;
    }
    match w & 0xF0FF {
        0x50FA => TPF_W,
        0x50FB => TPF_L,
        0x50FC => TPF,
        _ => line_5_f0f8(w),
    }
}

fn line_5_f0f8(w: u32) -> u8
    requires { Within 5 3 w }
    ensures { result ≡ row_of w }
{
    match w & 0xF0F8 {
        0x5008 => ADDQ_AN_B,
        0x5048 => ADDQ_AN_W,
        0x5088 => ADDQ_AN_L,
        0x50C0 => SCC,
        _ => line_5_f0c0(w),
    }
}

fn line_5_f0c0(w: u32) -> u8
    requires { Within 5 7 w }
    ensures { result ≡ row_of w }
{
    if w & 0xF0C0 == 0x50C0 {
        return ILL_50C0;
    }
    ADDQ
}

fn line_6(w: u32) -> u8
    requires { Within 6 0 w }
    ensures { result ≡ row_of w }
{
    if w & 0xFF00 == 0x6000 {
        return BRA;
    }
    if w & 0xFF00 == 0x6100 {
        return BSR;
    }
    BCC
}

fn line_7(w: u32) -> u8
    requires { Within 7 0 w }
    ensures { result ≡ row_of w }
{
    if w & 0xF180 == 0x7100 {
        return MVS;
    }
    if w & 0xF180 == 0x7180 {
        return MVZ;
    }
    MOVEQ
}

fn line_8(w: u32) -> u8
    requires { Within 8 0 w }
    ensures { result ≡ row_of w }
{
    if w & 0xF1C0 == 0x80C0 {
        return DIVU_W;
    }
    if w & 0xF1C0 == 0x81C0 {
        return DIVS_W;
    }
    if w & 0xF100 == 0x8000 {
        return OR_DN;
    }
    OR_MEM
}

fn line_9(w: u32) -> u8
    requires { Within 9 0 w }
    ensures { result ≡ row_of w }
{
    match w & 0xF1F8 {
        0x9100 => SUBX_B,
        0x9140 => SUBX_W,
        0x9180 => SUBX_L,
        0x9108 => SUB_ILL_B,
        0x9148 => SUB_ILL_W,
        0x9188 => SUB_ILL_L,
        _ => line_9_f1c0(w),
    }
}

fn line_9_f1c0(w: u32) -> u8
    requires { Within 9 6 w }
    ensures { result ≡ row_of w }
{
    if w & 0xF1C0 == 0x90C0 {
        return SUBA_W;
    }
    if w & 0xF1C0 == 0x91C0 {
        return SUBA_L;
    }
    if w & 0xF100 == 0x9000 {
        return SUB_DN;
    }
    SUB_MEM
}

fn line_a(w: u32) -> u8
    requires { Within 0xA 0 w }
    ensures { result ≡ row_of w }
{
    // MAC first, for it is frequent: none of the rows before it can fit beside it.
    if w & 0xF100 == 0xA000 {
        return MAC;
    }
    if w & 0xFFFF == 0xA9C0 {
        return MACSR_CCR;
    }
    if w & 0xF9FC == 0xA110 {
        return COPY_ACC;
    }
    if w & 0xFFF0 == 0xA980 {
        return READ_MACSR;
    }
    if w & 0xFFF0 == 0xAD80 {
        return READ_MASK;
    }
    if w & 0xFBF0 == 0xAB80 {
        return READ_ACCEXT;
    }
    line_a_ffc0(w)
}

fn line_a_ffc0(w: u32) -> u8
    requires { Within 0xA 5 w }
    ensures { result ≡ row_of w }
{
    if w & 0xFFC0 == 0xA900 {
        return WRITE_MACSR;
    }
    if w & 0xFFC0 == 0xAD00 {
        return WRITE_MASK;
    }
    if w & 0xF9B0 == 0xA180 {
        return READ_ACC;
    }
    if w & 0xFBC0 == 0xAB00 {
        return WRITE_ACCEXT;
    }
    if w & 0xF9C0 == 0xA100 {
        return WRITE_ACC;
    }
    line_a_f1c0(w)
}

fn line_a_f1c0(w: u32) -> u8
    requires { Within 0xA 10 w }
    ensures { result ≡ row_of w }
{
    if w & 0xF1C0 == 0xA140 {
        return MOV3Q;
    }
    if w & 0xF100 == 0xA000 {
        return MAC;
    }
    LINEA
}

fn line_b(w: u32) -> u8
    requires { Within 0xB 0 w }
    ensures { result ≡ row_of w }
{
    if w & 0xF1C0 == 0xB0C0 {
        return CMPA_W;
    }
    if w & 0xF1C0 == 0xB1C0 {
        return CMPA_L;
    }
    if w & 0xF100 == 0xB000 {
        return CMP;
    }
    EOR
}

fn line_c(w: u32) -> u8
    requires { Within 0xC 0 w }
    ensures { result ≡ row_of w }
{
    if w & 0xF1C0 == 0xC0C0 {
        return MULU_W;
    }
    if w & 0xF1C0 == 0xC1C0 {
        return MULS_W;
    }
    if w & 0xF100 == 0xC000 {
        return AND_DN;
    }
    AND_MEM
}

fn line_d(w: u32) -> u8
    requires { Within 0xD 0 w }
    ensures { result ≡ row_of w }
{
    match w & 0xF1F8 {
        0xD100 => ADDX_B,
        0xD140 => ADDX_W,
        0xD180 => ADDX_L,
        0xD108 => ADD_ILL_B,
        0xD148 => ADD_ILL_W,
        0xD188 => ADD_ILL_L,
        _ => line_d_f1c0(w),
    }
}

fn line_d_f1c0(w: u32) -> u8
    requires { Within 0xD 6 w }
    ensures { result ≡ row_of w }
{
    if w & 0xF1C0 == 0xD0C0 {
        return ADDA_W;
    }
    if w & 0xF1C0 == 0xD1C0 {
        return ADDA_L;
    }
    if w & 0xF100 == 0xD000 {
        return ADD_DN;
    }
    ADD_MEM
}

fn line_e(w: u32) -> u8
    requires { Within 0xE 0 w }
    ensures { result ≡ row_of w }
{
    if w & 0xF0D8 == 0xE080 {
        return ASX;
    }
    if w & 0xF0D8 == 0xE088 {
        return LSX;
    }
    ILL_E
}

fn line_f(w: u32) -> u8
    requires { Within 0xF 0 w }
    ensures { result ≡ row_of w }
{
    if w & 0xFFC0 == 0xFBC0 {
        return WDEBUG;
    }
    if w & 0xFF00 == 0xF400 {
        return CACHE;
    }
    if w & 0xFF00 == 0xFB00 {
        return WDDATA;
    }
    LINEF
}

// The row of the low 16 bits of a word: of those that fit it, the one with the most fixed bits.
pub fn row_of(word: u32) -> u8
    ensures { result ≡ row_of word }
{
    let w = word % 0x1_0000;
    match w / 0x1000 {
        0 => line_0(w),
        1 => line_1(w),
        2 => line_2(w),
        3 => line_3(w),
        4 => line_4(w),
        5 => line_5(w),
        6 => line_6(w),
        7 => line_7(w),
        8 => line_8(w),
        9 => line_9(w),
        10 => line_a(w),
        11 => line_b(w),
        12 => line_c(w),
        13 => line_d(w),
        14 => line_e(w),
        _ => line_f(w),
    }
}

// The table of rows by the top ten bits. It is built on the stack where this is called: a run calls it once, and lends it.
pub fn top_rows() -> [u8; 1024]
    ensures { result ≡ top_rows }
{
    table::TOP
}

// The row of a word by a lent table of the top ten bits, and by the rows where the table has none.
pub fn row_by(top: &[u8], word: u32) -> u8
    ensures { result ≡ row_by top.now word }
{
    let i = (word / 64 % 1024) as usize;
    if i < top.len() {
        let row = top[i];
        if row < UNSETTLED {
            return row;
        }
    }
    row_of(word)
}
