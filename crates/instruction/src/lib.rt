// The instructions, and the parts that their effects share. The effects, what each instruction of table 7 (document 001) asks for before anything
// is written, stand in the crates `storage`, `operators` and `flow`.
#![tactic(auto)]

pub mod shape;

// The instructions in opcode order. `Illegal` stands for every opcode that raises -256.
#[derive(Clone, Copy)]
pub enum Instruction {
    // 00h NEXT
    Next,
    // 01h DUP
    Dup,
    // 02h DROP
    Drop,
    // 03h SWAP
    Swap,
    // 04h OVER
    Over,
    // 05h ROT
    Rot,
    // 06h -ROT
    MinusRot,
    // 07h TUCK
    Tuck,
    // 08h NIP
    Nip,
    // 09h PICK
    Pick,
    // 0Ah ROLL
    Roll,
    // 0Bh ?DUP
    QuestionDup,
    // 0Ch >R
    ToR,
    // 0Dh R>
    RFrom,
    // 0Eh R@
    RFetch,
    // 0Fh <
    Less,
    // 10h >
    Greater,
    // 11h =
    Equal,
    // 12h <>
    NotEqual,
    // 13h 0<
    ZeroLess,
    // 14h 0>
    ZeroGreater,
    // 15h 0=
    ZeroEqual,
    // 16h 0<>
    ZeroNotEqual,
    // 17h U<
    ULess,
    // 18h U>
    UGreater,
    // 19h 0
    Zero,
    // 1Ah 1
    One,
    // 1Bh -1
    MinusOne,
    // 1Ch CELL
    CellSize,
    // 1Dh -CELL
    MinusCell,
    // 1Eh +
    Plus,
    // 1Fh -
    Minus,
    // 20h >-<
    SwapMinus,
    // 21h 1+
    OnePlus,
    // 22h 1-
    OneMinus,
    // 23h CELL+
    CellPlus,
    // 24h CELL-
    CellMinus,
    // 25h *
    Star,
    // 26h /
    Slash,
    // 27h MOD
    Mod,
    // 28h /MOD
    SlashMod,
    // 29h U/MOD
    USlashMod,
    // 2Ah S/REM
    SSlashRem,
    // 2Bh 2/
    TwoSlash,
    // 2Ch CELLS
    Cells,
    // 2Dh ABS
    Abs,
    // 2Eh NEGATE
    Negate,
    // 2Fh MAX
    Max,
    // 30h MIN
    Min,
    // 31h INVERT
    Invert,
    // 32h AND
    And,
    // 33h OR
    Or,
    // 34h XOR
    Xor,
    // 35h LSHIFT
    LShift,
    // 36h RSHIFT
    RShift,
    // 37h 1LSHIFT
    OneLShift,
    // 38h 1RSHIFT
    OneRShift,
    // 39h @
    FetchCell,
    // 3Ah !
    StoreCell,
    // 3Bh C@
    CFetch,
    // 3Ch C!
    CStore,
    // 3Dh +!
    PlusStore,
    // 3Eh SP@
    SpFetch,
    // 3Fh SP!
    SpStore,
    // 40h RP@
    RpFetch,
    // 41h RP!
    RpStore,
    // 42h BRANCH
    Branch,
    // 43h BRANCHI
    BranchI,
    // 44h ?BRANCH
    QuestionBranch,
    // 45h ?BRANCHI
    QuestionBranchI,
    // 46h EXECUTE
    Execute,
    // 47h @EXECUTE
    FetchExecute,
    // 48h CALL
    Call,
    // 49h CALLI
    CallI,
    // 4Ah EXIT
    Exit,
    // 4Bh (DO)
    Do,
    // 4Ch (LOOP)
    Loop,
    // 4Dh (LOOP)I
    LoopI,
    // 4Eh (+LOOP)
    PlusLoop,
    // 4Fh (+LOOP)I
    PlusLoopI,
    // 50h UNLOOP
    Unloop,
    // 51h J
    J,
    // 52h (LITERAL)
    Literal,
    // 53h (LITERAL)I
    LiteralI,
    // 54h THROW
    Throw,
    // 55h HALT
    Halt,
    // 57h LIB
    Lib,
    // 56h, 58h to FEh
    Illegal,
}

// Where an instruction's operand stands: in the cell at EP, or in what is left of A.
#[derive(Clone, Copy)]
pub enum OperandForm {
    InCell,
    Immediate,
}
