// Which drawing states are in range.
ghost use Rattle.std.specs.Prelude.{◌≡◌, ◌&&◌, leb};
ghost use Rattle.rules.specs.Drawing.{row_of, role_of, length_of};
ghost use Rattle.rules.specs.Ranges.{domain_fits, colour_fits, opcode_fits, vertices_fit, command_fits, begun_fits, drawing_fits};

use data_bytes::role_due;
use opcodes::{length_of, row_of};
use rules::{Colour, Command, Domain, Drawing, MOST_VERTICES};

fn within(low: u8, n: u8, high: u8) -> bool
    ensures { result ≡ (leb low n && leb n high) }
{
    low <= n && n <= high
}

fn domain_fits(d: Domain) -> bool
    ensures { result ≡ domain_fits d }
{
    within(1, d.single, 4) && within(1, d.multi, 8)
}

fn colour_fits(c: Colour) -> bool
    ensures { result ≡ colour_fits c }
{
    c.foreground <= 15 && c.background <= 15
}

fn opcode_fits(opcode: u8) -> bool
    ensures { result ≡ opcode_fits opcode }
{
    opcode == 0 || within(32, opcode, 63)
}

// The start is counted.
fn vertices_fit(vertices: u16) -> bool
    ensures { result ≡ vertices_fit vertices }
{
    1 <= vertices && vertices <= MOST_VERTICES
}

fn command_fits(c: Command) -> bool
    ensures { result ≡ command_fits c }
{
    opcode_fits(c.opcode) && vertices_fit(c.vertices)
}

// No operand is begun, or one with fewer bytes than the operand that is due has by its role.
fn operand_fits(drawing: Drawing) -> bool
    ensures { result ≡ begun_fits drawing.pen.operand.count
        (length_of (role_of (row_of drawing.command.opcode).pattern drawing.command.due) drawing.look.domain) }
{
    let count = drawing.pen.operand.count;
    if count == 0 {
        return true;
    }
    let command = drawing.command;
    let row = row_of(command.opcode);
    count < length_of(role_due(row, command), drawing.look.domain)
}

pub(crate) fn drawing_fits(drawing: Drawing) -> bool
    ensures { result ≡ drawing_fits drawing }
{
    domain_fits(drawing.look.domain)
        && (colour_fits(drawing.look.colour)
            && (command_fits(drawing.command) && operand_fits(drawing)))
}
