// What a line of the program `text_calls` asks for: its kind, its numbers and its text, parted by single spaces. The text is given by two
// lowercase hexadecimal digits for each byte.
ghost use Rattle.std.specs.Prelude.{◌≤◌, IfSome};

use batch::fields::Fields;

// The most numbers that are lent in a work buffer.
const LENT: u32 = 16_008;

// How many numbers of each work buffer are lent.
#[derive(Clone, Copy)]
pub struct Rooms {
    pub free: usize,
    pub sum: usize,
    pub part: usize,
    pub held: usize,
    pub running: usize,
    pub spare: usize,
    pub ghost lendable: { (free ≤ 16008) × (sum ≤ 16008) × (part ≤ 16008) × (held ≤ 16008) × (running ≤ 16008) × (spare ≤ 16008) },
}

// What is asked of a text.
#[derive(Clone, Copy)]
pub enum Request {
    Report,
    MachineReport,
    Reading,
    Ticks,
    WithRoom(usize),
    Analyse(Rooms),
    WhoAt(u32, Rooms),
    Rewritten,
}

// A line: what it asks for, and the digits of the text.
#[derive(Clone, Copy)]
pub struct Asked<'a> {
    pub request: Request,
    pub digits: &'a [u8],
}

// Reads how much of a work buffer is lent.
fn read_room(fields: &mut Fields) -> Option<usize>
    ensures { IfSome result (λ room. room ≤ 16008) }
{
    Some(fields.number_up_to(LENT)? as usize)
}

// Reads how much of the six work buffers is lent.
fn read_rooms(fields: &mut Fields) -> Option<Rooms> {
    Some(Rooms {
        free: read_room(fields)?,
        sum: read_room(fields)?,
        part: read_room(fields)?,
        held: read_room(fields)?,
        running: read_room(fields)?,
        spare: read_room(fields)?,
    })
}

// Reads the kind and the numbers in front of the text.
fn read_request(fields: &mut Fields) -> Option<Request> {
    let request = match fields.number()? {
        1 => Request::Report,
        2 => Request::MachineReport,
        3 => Request::Reading,
        4 => Request::Ticks,
        5 => Request::WithRoom(fields.next_number()? as usize),
        6 => Request::Analyse(read_rooms(fields)?),
        7 => Request::WhoAt(fields.next_number()?, read_rooms(fields)?),
        8 => Request::Rewritten,
        _ => return None,
    };
    Some(request)
}

// Reads a line up to its text; none where it asks for nothing. What its digits stand for is `batch::decode`'s, for which room is lent.
pub fn read_line(line: &[u8]) -> Option<Asked<'_>> {
    let mut fields = Fields::of(line);
    let request = read_request(&mut fields)?;
    fields.space()?;
    Some(Asked {
        request,
        digits: fields.rest,
    })
}
