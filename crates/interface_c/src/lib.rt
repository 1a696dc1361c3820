// The functions that a program in C links with: the static library of the planner. Each repeats one of
// `interface`, since a crate is a library or a static library and not both.
#![tactic(auto)]

ghost use Rattle.std.specs.Prelude.{◌≡◌, negsuc};
ghost use Rattle.line.specs.Fillings.{Codes, Cells};
ghost use Rattle.interface.specs.Lines.{ethernet, cells};
ghost use Rattle.interface.specs.Performed.{Performs, came_to};

// Calls on a plan on an Ethernet line with these rate codes.
#[unsafe(no_mangle)]
pub extern "C" fn givrethans_perform_ethernet(
    codes: &[u8],
    calls: &[u8],
    answers: &mut [u8],
    buffer: &mut [u8],
) -> i64
    ensures performs { Codes codes.now → Performs (ethernet codes.now) calls.now answers.old buffer.old (came_to result answers.new buffer.new) }
    ensures refused { (Codes codes.now → ⊥) → came_to result answers.new buffer.new ≡ came_to (negsuc 0) answers.old buffer.old }
{
    interface::givrethans_perform_ethernet(codes, calls, answers, buffer)
}

// Calls on a plan on a cell line with these figures.
#[unsafe(no_mangle)]
pub extern "C" fn givrethans_perform_cells(
    ports: u8,
    cell_size: u16,
    cell_time: u32,
    calls: &[u8],
    answers: &mut [u8],
    buffer: &mut [u8],
) -> i64
    ensures performs { Cells ports cell_size cell_time → Performs (cells ports cell_size cell_time) calls.now answers.old buffer.old (came_to result answers.new buffer.new) }
    ensures refused { (Cells ports cell_size cell_time → ⊥) → came_to result answers.new buffer.new ≡ came_to (negsuc 0) answers.old buffer.old }
{
    interface::givrethans_perform_cells(ports, cell_size, cell_time, calls, answers, buffer)
}
