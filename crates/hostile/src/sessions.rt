// Sessions with a field changed, as no call hands them over.
use rules::{Bodies, Cursor, Point, Session, Waiting};

// No function stands for these: each sets other fields, a line each.
pub(crate) fn with_lengths(mut session: Session, single: u8, multi: u8) -> Session {
    session.drawing.look.domain.single = single;
    session.drawing.look.domain.multi = multi;
    session
}

pub(crate) fn with_addresses(mut session: Session, foreground: u8, background: u8) -> Session {
    session.drawing.look.colour.foreground = foreground;
    session.drawing.look.colour.background = background;
    session
}

pub(crate) fn with_command(mut session: Session, opcode: u8, vertices: u16) -> Session {
    session.drawing.command.opcode = opcode;
    session.drawing.command.vertices = vertices;
    session
}

// An open command with bytes of an operand begun.
pub(crate) fn with_operand(mut session: Session, opcode: u8, count: u8) -> Session {
    session.drawing.command.opcode = opcode;
    session.drawing.pen.operand.count = count;
    session
}

// A cursor and a character field of any patterns.
pub(crate) fn with_text(mut session: Session, cursor: u32, field: u32) -> Session {
    session.drawing.pen.text.cursor = Point {
        x: cursor,
        y: cursor,
    };
    session.drawing.pen.text.field = Point { x: field, y: field };
    session
}

pub(crate) fn with_depth(mut session: Session, depth: u8) -> Session {
    session.bodies.depth = depth;
    session
}

pub(crate) fn with_places(mut session: Session, outermost: u8, innermost: u8) -> Session {
    let mut cursors = session.bodies.cursors;
    cursors[0] = Cursor {
        place: outermost,
        ..cursors[0]
    };
    cursors[7] = Cursor {
        place: innermost,
        ..cursors[7]
    };
    session.bodies.cursors = cursors;
    session
}

// One body running, in a cell of the store.
pub(crate) fn with_body(mut session: Session, cell: u8, place: u8) -> Session {
    let mut cursors = session.bodies.cursors;
    cursors[0] = Cursor { cell, place };
    session.bodies = Bodies { depth: 1, cursors };
    session
}

// Eight bodies running, each at the start of its cell, the innermost in a cell of its own.
pub(crate) fn with_eight(mut session: Session, others: u8, innermost: u8) -> Session {
    let mut cursors = [Cursor {
        cell: others,
        place: 0,
    }; 8];
    cursors[7] = Cursor {
        cell: innermost,
        place: 0,
    };
    session.bodies = Bodies { depth: 8, cursors };
    session
}

pub(crate) fn with_waiting(mut session: Session, waiting: Waiting) -> Session {
    session.coding.waiting = waiting;
    session
}

// The first cell of the body of the name 2/1.
pub(crate) fn with_first(mut session: Session, cell: u8) -> Session {
    session.coding.firsts[1] = cell;
    session
}

// The colour at the last address of the map.
pub(crate) fn with_last_colour(mut session: Session, green: u8, red: u8, blue: u8) -> Session {
    session.drawing.map[45] = green;
    session.drawing.map[46] = red;
    session.drawing.map[47] = blue;
    session
}

pub(crate) fn with_steps(mut session: Session, steps: u32) -> Session {
    session.steps = steps;
    session
}
