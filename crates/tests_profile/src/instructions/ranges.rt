//! Each range of an operand at its ends, and the words just outside it: C6.2 of the Arm manual, one section an
//! instruction, and the words that this project's profile leaves out.
use crate::instructions::spelling::{first_not_spelled, first_spelled};
use lfi_module::Profile;
use std::test::Fail;

/// Words that are instructions.
const INSTRUCTIONS: [u32; 252] = [
    0x91000020, // ADD X0, X1, #0
    0x913FFC20, // ADD X0, X1, #4095
    0x717FFFFF, // SUBS WZR, WSP, #4095, LSL #12
    0x92400020, // AND X, N 1, imms 0
    0x9240F820, // AND X, N 1, imms 62
    0x12007820, // AND W, N 0, imms 30
    0x92007820, // AND X, N 0, imms 30
    0x9200B820, // AND X, N 0, imms 46
    0x92008020, // AND X, N 0, imms 32
    0x9200C020, // AND X, N 0, imms 48
    0x9200D820, // AND X, N 0, imms 54
    0x9200E020, // AND X, N 0, imms 56
    0x9200E820, // AND X, N 0, imms 58
    0x9200F020, // AND X, N 0, imms 60
    0x1200F020, // AND W, N 0, imms 60
    0x723F1C20, // ANDS W, immr 63
    0xD27F1C20, // EOR X, immr 63
    0x129FFFFF, // move wide W opc 0 hw 0
    0x52BFFFFF, // move wide W opc 2 hw 1
    0x72BFFFFF, // move wide W opc 3 hw 1
    0x92DFFFFF, // move wide X opc 0 hw 2
    0xD2FFFFFF, // move wide X opc 2 hw 3
    0xF2FFFFFF, // move wide X opc 3 hw 3
    0x10000003, // ADR
    0x90000003, // ADRP
    0x707FFFE3, // ADR
    0xF07FFFE3, // ADRP
    0x10800003, // ADR
    0x90800003, // ADRP
    0x70FFFFE3, // ADR
    0xF0FFFFE3, // ADRP
    0x131F7C20, // bitfield W opc 0 N 0 immr 31 imms 31
    0x937FFC20, // bitfield X opc 0 N 1 immr 63 imms 63
    0xB3608020, // bitfield X opc 1 N 1 immr 32 imms 32
    0x0A027C20, // logical shifted W opc 0 shift 0 N 0 amount 31
    0x8A02FC20, // logical shifted X opc 0 shift 0 N 0 amount 63
    0xAAE2FC20, // logical shifted X opc 1 shift 3 N 1 amount 63
    0xCAA28020, // logical shifted X opc 2 shift 2 N 1 amount 32
    0x2AC27C20, // logical shifted W opc 1 shift 3 N 0 amount 31
    0x0B027C20, // ADD/SUB shifted W shift 0 amount 31
    0x8B82FC20, // ADD/SUB shifted X shift 2 amount 63
    0xEB428020, // ADD/SUB shifted X shift 1 amount 32
    0x0B220020, // ADD/SUB extended option 0 by 0
    0x0B221020, // ADD/SUB extended option 0 by 4
    0x8B222020, // ADD/SUB extended option 1 by 0
    0x8B223020, // ADD/SUB extended option 1 by 4
    0x4B224020, // ADD/SUB extended option 2 by 0
    0x4B225020, // ADD/SUB extended option 2 by 4
    0xCB226020, // ADD/SUB extended option 3 by 0
    0xCB227020, // ADD/SUB extended option 3 by 4
    0x2B228020, // ADD/SUB extended option 4 by 0
    0x2B229020, // ADD/SUB extended option 4 by 4
    0xAB22A020, // ADD/SUB extended option 5 by 0
    0xAB22B020, // ADD/SUB extended option 5 by 4
    0x6B22C020, // ADD/SUB extended option 6 by 0
    0x6B22D020, // ADD/SUB extended option 6 by 4
    0xEB22E020, // ADD/SUB extended option 7 by 0
    0xEB22F020, // ADD/SUB extended option 7 by 4
    0x3A5F000F, // conditional compare, condition 0
    0xBA5E102E, // conditional compare, condition 1
    0x7A5D204D, // conditional compare, condition 2
    0xFA5C306C, // conditional compare, condition 3
    0x3A5B488B, // conditional compare, condition 4
    0xBA5A58AA, // conditional compare, condition 5
    0x7A5968C9, // conditional compare, condition 6
    0xFA5878E8, // conditional compare, condition 7
    0x3A578107, // conditional compare, condition 8
    0xBA569126, // conditional compare, condition 9
    0x7A55A145, // conditional compare, condition 10
    0xFA54B164, // conditional compare, condition 11
    0x3A53C983, // conditional compare, condition 12
    0xBA52D9A2, // conditional compare, condition 13
    0x7A51E9C1, // conditional compare, condition 14
    0xFA50F9E0, // conditional compare, condition 15
    0x1A820020, // conditional select, condition 0
    0x9A821020, // conditional select, condition 1
    0x5A822020, // conditional select, condition 2
    0xDA823020, // conditional select, condition 3
    0x1A824420, // conditional select, condition 4
    0x9A825420, // conditional select, condition 5
    0x5A826420, // conditional select, condition 6
    0xDA827420, // conditional select, condition 7
    0x1A828020, // conditional select, condition 8
    0x9A829020, // conditional select, condition 9
    0x5A82A020, // conditional select, condition 10
    0xDA82B020, // conditional select, condition 11
    0x1A82C420, // conditional select, condition 12
    0x9A82D420, // conditional select, condition 13
    0x5A82E420, // conditional select, condition 14
    0xDA82F420, // conditional select, condition 15
    0x1AC20820, // two-source, opcode 2
    0x9AC20C20, // two-source, opcode 3
    0x1AC22020, // two-source, opcode 8
    0x9AC22420, // two-source, opcode 9
    0x1AC22820, // two-source, opcode 10
    0x9AC22C20, // two-source, opcode 11
    0x5AC01020, // one-source, opcode 4
    0x1B027C20, // three-source W, op31 0, o0 0
    0x1B02FC20, // three-source W, op31 0, o0 1
    0x9B027C20, // three-source X, op31 0, o0 0
    0x9B02FC20, // three-source X, op31 0, o0 1
    0x9B427C20, // three-source X, op31 2, o0 0
    0x9BC27C20, // three-source X, op31 6, o0 0
    0xD4200000, // BRK #0
    0xD43FFFE0, // BRK #65535
    0xD61F0000, // branch to a register
    0xD61F03E0, // branch to a register
    0xD63F0000, // branch to a register
    0xD63F03E0, // branch to a register
    0xD65F0000, // branch to a register
    0xD65F03E0, // branch to a register
    0x14000000, // B or BL
    0x15FFFFFF, // B or BL
    0x16000000, // B or BL
    0x17FFFFFF, // B or BL
    0x94000000, // B or BL
    0x95FFFFFF, // B or BL
    0x96000000, // B or BL
    0x97FFFFFF, // B or BL
    0x54000000, // B.cond
    0x5400000E, // B.cond
    0x5400000F, // B.cond
    0x34000000, // CBZ W
    0xB500001F, // CBNZ X
    0x547FFFE0, // B.cond
    0x547FFFEE, // B.cond
    0x547FFFEF, // B.cond
    0x347FFFE0, // CBZ W
    0xB57FFFFF, // CBNZ X
    0x54800000, // B.cond
    0x5480000E, // B.cond
    0x5480000F, // B.cond
    0x34800000, // CBZ W
    0xB580001F, // CBNZ X
    0x54FFFFE0, // B.cond
    0x54FFFFEE, // B.cond
    0x54FFFFEF, // B.cond
    0x34FFFFE0, // CBZ W
    0xB5FFFFFF, // CBNZ X
    0x36F80000, // TBZ W, #31
    0xB7F8001E, // TBNZ X, #63
    0xB6000000, // TBZ X, #32
    0x36FBFFE0, // TBZ W, #31
    0xB7FBFFFE, // TBNZ X, #63
    0xB603FFE0, // TBZ X, #32
    0x36FC0000, // TBZ W, #31
    0xB7FC001E, // TBNZ X, #63
    0xB6040000, // TBZ X, #32
    0x36FFFFE0, // TBZ W, #31
    0xB7FFFFFE, // TBNZ X, #63
    0xB607FFE0, // TBZ X, #32
    0x393FFC20, // unsigned offset, size 0 opc 0
    0x38100020, // signed offset, size 0 opc 0 mode 0
    0x38100420, // signed offset, size 0 opc 0 mode 1
    0x38100C20, // signed offset, size 0 opc 0 mode 3
    0x38225820, // register offset, size 0 opc 0
    0x397FFC20, // unsigned offset, size 0 opc 1
    0x38500020, // signed offset, size 0 opc 1 mode 0
    0x38500420, // signed offset, size 0 opc 1 mode 1
    0x38500C20, // signed offset, size 0 opc 1 mode 3
    0x38625820, // register offset, size 0 opc 1
    0x39BFFC20, // unsigned offset, size 0 opc 2
    0x38900020, // signed offset, size 0 opc 2 mode 0
    0x38900420, // signed offset, size 0 opc 2 mode 1
    0x38900C20, // signed offset, size 0 opc 2 mode 3
    0x38A25820, // register offset, size 0 opc 2
    0x39FFFC20, // unsigned offset, size 0 opc 3
    0x38D00020, // signed offset, size 0 opc 3 mode 0
    0x38D00420, // signed offset, size 0 opc 3 mode 1
    0x38D00C20, // signed offset, size 0 opc 3 mode 3
    0x38E25820, // register offset, size 0 opc 3
    0x793FFC20, // unsigned offset, size 1 opc 0
    0x78100020, // signed offset, size 1 opc 0 mode 0
    0x78100420, // signed offset, size 1 opc 0 mode 1
    0x78100C20, // signed offset, size 1 opc 0 mode 3
    0x78225820, // register offset, size 1 opc 0
    0x797FFC20, // unsigned offset, size 1 opc 1
    0x78500020, // signed offset, size 1 opc 1 mode 0
    0x78500420, // signed offset, size 1 opc 1 mode 1
    0x78500C20, // signed offset, size 1 opc 1 mode 3
    0x78625820, // register offset, size 1 opc 1
    0x79BFFC20, // unsigned offset, size 1 opc 2
    0x78900020, // signed offset, size 1 opc 2 mode 0
    0x78900420, // signed offset, size 1 opc 2 mode 1
    0x78900C20, // signed offset, size 1 opc 2 mode 3
    0x78A25820, // register offset, size 1 opc 2
    0x79FFFC20, // unsigned offset, size 1 opc 3
    0x78D00020, // signed offset, size 1 opc 3 mode 0
    0x78D00420, // signed offset, size 1 opc 3 mode 1
    0x78D00C20, // signed offset, size 1 opc 3 mode 3
    0x78E25820, // register offset, size 1 opc 3
    0xB93FFC20, // unsigned offset, size 2 opc 0
    0xB8100020, // signed offset, size 2 opc 0 mode 0
    0xB8100420, // signed offset, size 2 opc 0 mode 1
    0xB8100C20, // signed offset, size 2 opc 0 mode 3
    0xB8225820, // register offset, size 2 opc 0
    0xB97FFC20, // unsigned offset, size 2 opc 1
    0xB8500020, // signed offset, size 2 opc 1 mode 0
    0xB8500420, // signed offset, size 2 opc 1 mode 1
    0xB8500C20, // signed offset, size 2 opc 1 mode 3
    0xB8625820, // register offset, size 2 opc 1
    0xB9BFFC20, // unsigned offset, size 2 opc 2
    0xB8900020, // signed offset, size 2 opc 2 mode 0
    0xB8900420, // signed offset, size 2 opc 2 mode 1
    0xB8900C20, // signed offset, size 2 opc 2 mode 3
    0xB8A25820, // register offset, size 2 opc 2
    0xF93FFC20, // unsigned offset, size 3 opc 0
    0xF8100020, // signed offset, size 3 opc 0 mode 0
    0xF8100420, // signed offset, size 3 opc 0 mode 1
    0xF8100C20, // signed offset, size 3 opc 0 mode 3
    0xF8225820, // register offset, size 3 opc 0
    0xF97FFC20, // unsigned offset, size 3 opc 1
    0xF8500020, // signed offset, size 3 opc 1 mode 0
    0xF8500420, // signed offset, size 3 opc 1 mode 1
    0xF8500C20, // signed offset, size 3 opc 1 mode 3
    0xF8625820, // register offset, size 3 opc 1
    0xF8624820, // register offset, option 2
    0xF8626820, // register offset, option 3
    0xF862C820, // register offset, option 6
    0xF862E820, // register offset, option 7
    0xF84FF7FF, // indexed on sp, XZR
    0xF85007FF, // indexed on sp, XZR
    0xB8408401, // indexed on another register
    0xB84087DF, // indexed on another register
    0xF84FFFFF, // indexed on sp, XZR
    0xF8500FFF, // indexed on sp, XZR
    0xB8408C01, // indexed on another register
    0xB8408FDF, // indexed on another register
    0xF8408000, // LDUR X0, [X0, #8]
    0x28DF8C41, // pair, opc 0 mode 1
    0x295F8C41, // pair, opc 0 mode 2
    0x29DF8C41, // pair, opc 0 mode 3
    0xA8DF8C41, // pair, opc 2 mode 1
    0xA95F8C41, // pair, opc 2 mode 2
    0xA9DF8C41, // pair, opc 2 mode 3
    0xA8A007E1, // STP of one register
    0xA8807BFF, // pair, mode 1, base sp and data XZR
    0xA8C07BFF, // pair, mode 1, base sp and data XZR
    0xA92007E1, // STP of one register
    0xA9000C21, // pair, mode 2, base is Rt
    0xA9000423, // pair, mode 2, base is Rt2
    0xA9007BFF, // pair, mode 2, base sp and data XZR
    0xA9400C21, // pair, mode 2, base is Rt
    0xA9400423, // pair, mode 2, base is Rt2
    0xA9407BFF, // pair, mode 2, base sp and data XZR
    0xA9A007E1, // STP of one register
    0xA9807BFF, // pair, mode 3, base sp and data XZR
    0xA9C07BFF, // pair, mode 3, base sp and data XZR
    0xA90003E0, // STP X0, X0, [SP]
    0x8B2052B2, // ADD with imm3 4
    0x110003FF, // writes WSP
    0x0B3662BF, // writes WSP
];

/// Words that are none.
const OTHERS: [u32; 259] = [
    0x9240FC20, // AND X, N 1, imms 63
    0x12400020, // AND W, N 1, imms 0
    0x12007C20, // AND W, N 0, imms 31
    0x92007C20, // AND X, N 0, imms 31
    0x9200BC20, // AND X, N 0, imms 47
    0x9200DC20, // AND X, N 0, imms 55
    0x9200EC20, // AND X, N 0, imms 59
    0x9200F420, // AND X, N 0, imms 61
    0x9200F820, // AND X, N 0, imms 62
    0x9200FC20, // AND X, N 0, imms 63
    0x1200F420, // AND W, N 0, imms 61
    0x1200F820, // AND W, N 0, imms 62
    0x52DFFFFF, // move wide W opc 2 hw 2
    0x12FFFFFF, // move wide W opc 0 hw 3
    0xB29FFFFF, // move wide X opc 1 hw 0
    0x329FFFFF, // move wide W opc 1 hw 0
    0x33200020, // bitfield W opc 1 N 0 immr 32 imms 0
    0x53008020, // bitfield W opc 2 N 0 immr 0 imms 32
    0xF3400020, // bitfield X opc 3 N 1 immr 0 imms 0
    0x73000020, // bitfield W opc 3 N 0 immr 0 imms 0
    0xD3000020, // bitfield X opc 2 N 0 immr 0 imms 0
    0x53400020, // bitfield W opc 2 N 1 immr 0 imms 0
    0x133F7C20, // bitfield W opc 0 N 0 immr 63 imms 31
    0x131FFC20, // bitfield W opc 0 N 0 immr 31 imms 63
    0x0A028020, // logical shifted W opc 0 shift 0 N 0 amount 32
    0x6AE2FC20, // logical shifted W opc 3 shift 3 N 1 amount 63
    0x0B028020, // ADD/SUB shifted W shift 0 amount 32
    0x6B82FC20, // ADD/SUB shifted W shift 2 amount 63
    0x8BC20020, // ADD/SUB shifted X shift 3 amount 0
    0x6BC20020, // ADD/SUB shifted W shift 3 amount 0
    0x0B221420, // ADD/SUB extended option 0 by 5
    0x0B221C20, // ADD/SUB extended option 0 by 7
    0x8B223420, // ADD/SUB extended option 1 by 5
    0x8B223C20, // ADD/SUB extended option 1 by 7
    0x4B225420, // ADD/SUB extended option 2 by 5
    0x4B225C20, // ADD/SUB extended option 2 by 7
    0xCB227420, // ADD/SUB extended option 3 by 5
    0xCB227C20, // ADD/SUB extended option 3 by 7
    0x2B229420, // ADD/SUB extended option 4 by 5
    0x2B229C20, // ADD/SUB extended option 4 by 7
    0xAB22B420, // ADD/SUB extended option 5 by 5
    0xAB22BC20, // ADD/SUB extended option 5 by 7
    0x6B22D420, // ADD/SUB extended option 6 by 5
    0x6B22DC20, // ADD/SUB extended option 6 by 7
    0xEB22F420, // ADD/SUB extended option 7 by 5
    0xEB22FC20, // ADD/SUB extended option 7 by 7
    0x1AC20020, // two-source, opcode 0
    0x9AC20420, // two-source, opcode 1
    0x1AC21020, // two-source, opcode 4
    0x9AC21420, // two-source, opcode 5
    0x1AC21820, // two-source, opcode 6
    0x9AC21C20, // two-source, opcode 7
    0x1AC23020, // two-source, opcode 12
    0x9AC23420, // two-source, opcode 13
    0x1AC23820, // two-source, opcode 14
    0x9AC23C20, // two-source, opcode 15
    0x1AC24020, // two-source, opcode 16
    0x9AC24420, // two-source, opcode 17
    0x1AC24820, // two-source, opcode 18
    0x9AC24C20, // two-source, opcode 19
    0x1AC25020, // two-source, opcode 20
    0x9AC25420, // two-source, opcode 21
    0x1AC25820, // two-source, opcode 22
    0x9AC25C20, // two-source, opcode 23
    0x1AC26020, // two-source, opcode 24
    0x9AC26420, // two-source, opcode 25
    0x1AC26820, // two-source, opcode 26
    0x9AC26C20, // two-source, opcode 27
    0x1AC27020, // two-source, opcode 28
    0x9AC27420, // two-source, opcode 29
    0x1AC27820, // two-source, opcode 30
    0x9AC27C20, // two-source, opcode 31
    0x1AC28020, // two-source, opcode 32
    0x9AC28420, // two-source, opcode 33
    0x1AC28820, // two-source, opcode 34
    0x9AC28C20, // two-source, opcode 35
    0x1AC29020, // two-source, opcode 36
    0x9AC29420, // two-source, opcode 37
    0x1AC29820, // two-source, opcode 38
    0x9AC29C20, // two-source, opcode 39
    0x1AC2A020, // two-source, opcode 40
    0x9AC2A420, // two-source, opcode 41
    0x1AC2A820, // two-source, opcode 42
    0x9AC2AC20, // two-source, opcode 43
    0x1AC2B020, // two-source, opcode 44
    0x9AC2B420, // two-source, opcode 45
    0x1AC2B820, // two-source, opcode 46
    0x9AC2BC20, // two-source, opcode 47
    0x1AC2C020, // two-source, opcode 48
    0x9AC2C420, // two-source, opcode 49
    0x1AC2C820, // two-source, opcode 50
    0x9AC2CC20, // two-source, opcode 51
    0x1AC2D020, // two-source, opcode 52
    0x9AC2D420, // two-source, opcode 53
    0x1AC2D820, // two-source, opcode 54
    0x9AC2DC20, // two-source, opcode 55
    0x1AC2E020, // two-source, opcode 56
    0x9AC2E420, // two-source, opcode 57
    0x1AC2E820, // two-source, opcode 58
    0x9AC2EC20, // two-source, opcode 59
    0x1AC2F020, // two-source, opcode 60
    0x9AC2F420, // two-source, opcode 61
    0x1AC2F820, // two-source, opcode 62
    0x9AC2FC20, // two-source, opcode 63
    0x5AC00020, // one-source, opcode 0
    0x5AC00420, // one-source, opcode 1
    0x5AC00820, // one-source, opcode 2
    0x5AC00C20, // one-source, opcode 3
    0x5AC01420, // one-source, opcode 5
    0x5AC01820, // one-source, opcode 6
    0x5AC01C20, // one-source, opcode 7
    0x1B227C20, // three-source W, op31 1, o0 0
    0x1B22FC20, // three-source W, op31 1, o0 1
    0x1B427C20, // three-source W, op31 2, o0 0
    0x1B42FC20, // three-source W, op31 2, o0 1
    0x1B627C20, // three-source W, op31 3, o0 0
    0x1B62FC20, // three-source W, op31 3, o0 1
    0x1B827C20, // three-source W, op31 4, o0 0
    0x1B82FC20, // three-source W, op31 4, o0 1
    0x1BA27C20, // three-source W, op31 5, o0 0
    0x1BA2FC20, // three-source W, op31 5, o0 1
    0x1BC27C20, // three-source W, op31 6, o0 0
    0x1BC2FC20, // three-source W, op31 6, o0 1
    0x1BE27C20, // three-source W, op31 7, o0 0
    0x1BE2FC20, // three-source W, op31 7, o0 1
    0x9B227C20, // three-source X, op31 1, o0 0
    0x9B22FC20, // three-source X, op31 1, o0 1
    0x9B42FC20, // three-source X, op31 2, o0 1
    0x9B627C20, // three-source X, op31 3, o0 0
    0x9B62FC20, // three-source X, op31 3, o0 1
    0x9B827C20, // three-source X, op31 4, o0 0
    0x9B82FC20, // three-source X, op31 4, o0 1
    0x9BA27C20, // three-source X, op31 5, o0 0
    0x9BA2FC20, // three-source X, op31 5, o0 1
    0x9BC2FC20, // three-source X, op31 6, o0 1
    0x9BE27C20, // three-source X, op31 7, o0 0
    0x9BE2FC20, // three-source X, op31 7, o0 1
    0x9B427820, // SMULH with 30 for Ra
    0x9BC27820, // UMULH with 30 for Ra
    0x9B427420, // SMULH with 29 for Ra
    0x9BC27420, // UMULH with 29 for Ra
    0x9B426C20, // SMULH with 27 for Ra
    0x9BC26C20, // UMULH with 27 for Ra
    0x9B425C20, // SMULH with 23 for Ra
    0x9BC25C20, // UMULH with 23 for Ra
    0x9B423C20, // SMULH with 15 for Ra
    0x9BC23C20, // UMULH with 15 for Ra
    0x9B420020, // SMULH with 0 for Ra
    0x9BC20020, // UMULH with 0 for Ra
    0xD503203F, // YIELD
    0xD503205F, // WFE
    0xD503207F, // WFI
    0xD503209F, // SEV
    0xD50320BF, // SEVL
    0xD503233F, // PACIASP
    0xD503241F, // BTI
    0xD503309F, // DSB
    0xD50330BF, // DMB
    0xD5033FDF, // ISB
    0xD4000001, // SVC
    0xD4000002, // HVC
    0xD4000003, // SMC
    0xD4400000, // HLT
    0xD69F03E0, // ERET
    0xD6BF03E0, // DRPS
    0xD67F0000, // branch, opc 3
    0x00000000, // UDF
    0xFFFFFFFF, // all ones
    0x38100820, // signed offset, size 0 opc 0 mode 2
    0x38500820, // signed offset, size 0 opc 1 mode 2
    0x38900820, // signed offset, size 0 opc 2 mode 2
    0x38D00820, // signed offset, size 0 opc 3 mode 2
    0x78100820, // signed offset, size 1 opc 0 mode 2
    0x78500820, // signed offset, size 1 opc 1 mode 2
    0x78900820, // signed offset, size 1 opc 2 mode 2
    0x78D00820, // signed offset, size 1 opc 3 mode 2
    0xB8100820, // signed offset, size 2 opc 0 mode 2
    0xB8500820, // signed offset, size 2 opc 1 mode 2
    0xB8900820, // signed offset, size 2 opc 2 mode 2
    0xB9FFFC20, // unsigned offset, size 2 opc 3
    0xB8D00020, // signed offset, size 2 opc 3 mode 0
    0xB8D00420, // signed offset, size 2 opc 3 mode 1
    0xB8D00820, // signed offset, size 2 opc 3 mode 2
    0xB8D00C20, // signed offset, size 2 opc 3 mode 3
    0xB8E25820, // register offset, size 2 opc 3
    0xF8100820, // signed offset, size 3 opc 0 mode 2
    0xF8500820, // signed offset, size 3 opc 1 mode 2
    0xF9BFFC20, // unsigned offset, size 3 opc 2
    0xF8900020, // signed offset, size 3 opc 2 mode 0
    0xF8900420, // signed offset, size 3 opc 2 mode 1
    0xF8900820, // signed offset, size 3 opc 2 mode 2
    0xF8900C20, // signed offset, size 3 opc 2 mode 3
    0xF8A25820, // register offset, size 3 opc 2
    0xF9FFFC20, // unsigned offset, size 3 opc 3
    0xF8D00020, // signed offset, size 3 opc 3 mode 0
    0xF8D00420, // signed offset, size 3 opc 3 mode 1
    0xF8D00820, // signed offset, size 3 opc 3 mode 2
    0xF8D00C20, // signed offset, size 3 opc 3 mode 3
    0xF8E25820, // register offset, size 3 opc 3
    0xF8620820, // register offset, option 0
    0xF8622820, // register offset, option 1
    0xF8628820, // register offset, option 4
    0xF862A820, // register offset, option 5
    0xF8008400, // indexed on its data register
    0xF8408400, // indexed on its data register
    0xB8408400, // indexed on its data register
    0xB84087DE, // indexed on its data register
    0xF8008C00, // indexed on its data register
    0xF8408C00, // indexed on its data register
    0xB8408C00, // indexed on its data register
    0xB8408FDE, // indexed on its data register
    0x285F8C41, // pair, opc 0 mode 0
    0x685F8C41, // pair, opc 1 mode 0
    0x68DF8C41, // pair, opc 1 mode 1
    0x695F8C41, // pair, opc 1 mode 2
    0x69DF8C41, // pair, opc 1 mode 3
    0xA85F8C41, // pair, opc 2 mode 0
    0xE85F8C41, // pair, opc 3 mode 0
    0xE8DF8C41, // pair, opc 3 mode 1
    0xE95F8C41, // pair, opc 3 mode 2
    0xE9DF8C41, // pair, opc 3 mode 3
    0xA8E007E1, // LDP into one register
    0x28C07FFF, // LDP into WZR twice
    0xA8800C21, // pair, mode 1, base is Rt
    0xA8800423, // pair, mode 1, base is Rt2
    0xA8C00C21, // pair, mode 1, base is Rt
    0xA8C00423, // pair, mode 1, base is Rt2
    0xA96007E1, // LDP into one register
    0x29407FFF, // LDP into WZR twice
    0xA9E007E1, // LDP into one register
    0x29C07FFF, // LDP into WZR twice
    0xA9800C21, // pair, mode 3, base is Rt
    0xA9800423, // pair, mode 3, base is Rt2
    0xA9C00C21, // pair, mode 3, base is Rt
    0xA9C00423, // pair, mode 3, base is Rt2
    0xA94003E0, // LDP X0, X0, [SP]
    0x8B2056B2, // ADD with imm3 5
    0x1200FC20, // no mask
    0x12401C20, // no mask
    0xF8A14820, // PRFM
    0xF9800000, // PRFM
    0xD8000000, // PRFM
    0xA8400000, // LDNP
    0x69400400, // LDPSW
    0xF8400800, // LDTR
    0x58000000, // LDR of a literal
    0x9A020020, // ADC
    0xDA020020, // SBC
    0x93C20420, // EXTR
    0xDAC00020, // RBIT
    0xDAC00C20, // REV
    0xDAC01420, // CLS
    0x9B220C20, // SMADDL
    0x9BA20C20, // UMADDL
    0xC85F7C20, // LDXR
    0xF8200020, // LDADD
    0x1E222820, // FADD
    0x3DC00020, // LDR Q
    0x4E220420, // SIMD
];

#[test]
fn decodes_what_is_in_range(rt: HostRuntime) {
    for profile in [Profile::One, Profile::Two] {
        assert!(rt; first_not_spelled(&INSTRUCTIONS, profile) == None);
        assert!(rt; first_spelled(&OTHERS, profile) == None);
    }
}
