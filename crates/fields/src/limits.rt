// The numbers that are told from others. specs/Numbers.antt has the same for the definitions.
use sheet::limits::Sheet;

// The largest one: above every limit of a sheet. Larger numbers are read as this one.
pub const MOST: u32 = Sheet::COST + 1;

// What −1 is read as: above every number.
pub const ANY: u32 = MOST + 1;
