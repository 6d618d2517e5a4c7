// The host's one entry, exported: the call of its name in `exchange`, under the same contract.
#![tactic(auto)]

ghost use Rattle.exchange.specs.Entry.{Entered};

// The line of a column of the sheet, without its line end: the low 8 bits of the result are the number; bits 8 to 31
// the bytes written when done, the line when the sheet is refused.
#[unsafe(no_mangle)]
pub extern "C" fn fernijster_column(sheet: &[u8], column: u64, out: &mut [u8]) -> u64
    ensures { Entered sheet.now column out.old result out.new }
{
    exchange::fernijster_column(sheet, column, out)
}
