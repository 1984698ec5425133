// What has a fixed place or a fixed number: the machine's own cells, and the reasons of its own stops. specs/Fixed.antt has the same names.
use cell::Address;

// 'THROW
pub const HANDLER_CELL: Address = Address(0);

// MEMORY
pub const MEMORY_CELL: Address = Address(4);

// 'BAD
pub const BAD_CELL: Address = Address(8);

// -ADDRESS
pub const ADDRESS_CELL: Address = Address(12);

// -258: SP is not valid
pub const BAD_STACK: u32 = 0xFFFFFEFE;

// -259: 'THROW is not valid
pub const BAD_HANDLER: u32 = 0xFFFFFEFD;
