// Takes groups of parts that stand together, each with what parts them.
ghost use Rattle.std.specs.Prelude.{[], ◌∷◌};
ghost use Rattle.jobparts.specs.Cursors.{Takes};
ghost use Rattle.jobparts.specs.Grammar.{number, group_at};
ghost use Rattle.jobparts.specs.Parts.{part_alone, option_alone};
ghost use Rattle.jobgroups.specs.Commands.{size_parts, point_parts, magnification_parts, lettering_parts, extras_parts, type_parts, widths_parts, height_parts, ends_parts, shape_parts, count_parts, setup_parts, form_parts};
ghost use Rattle.jobgroups.specs.Table.{semicolon, sizes, text_field, bar_field, point, magnification, lettering, check_option, extras, bar_type, bar_widths, bar_height, line_ends, line_shape, comma_letter, issue_count, issue_setup, form};

use crate::checks::{bar_check, last_y_at, length_at, letter, one_of};
use crate::command::{
    BarType, Count, Ends, Extras, Form, Height, Lettering, Magnification, Point, Setup, Shape,
    Size, Widths,
};
use jobparts::cursor::Cursor;
use jobparts::part::{ByteKind, Part, Wrong};
use limits::sizes::{BAR_FIELDS, LAST_FORM, LONGEST_FINISHED, TEXT_FIELDS};

/// pppp,wwww,llll
#[tactic(auto, unfolding(crate::specs::Table::sizes))]
pub fn sizes_at<'a>(cursor: &mut Cursor<'a>) -> Result<Size<'a>, Wrong>
    ensures { Takes size_parts result cursor.old cursor.new (group_at sizes []) }
{
    let pitch = cursor.number(4, 0, 1500)?;
    cursor.byte(b',')?;
    let width = cursor.number(4, 100, 540)?;
    cursor.byte(b',')?;
    let length = length_at(cursor, pitch)?;
    Ok(Size {
        pitch,
        width,
        length,
    })
}

// A number from 1 to a highest, and a semicolon.
fn field<'a>(cursor: &mut Cursor<'a>, count: usize, high: u64) -> Result<Part<'a>, Wrong>
    ensures { let read = group_at (number count 1 high ∷ semicolon ∷ []) [] in
        Takes part_alone result cursor.old cursor.new read }
{
    let field = cursor.number(count, 1, high)?;
    cursor.byte(b';')?;
    Ok(field)
}

/// nnn;
#[tactic(auto, unfolding(crate::specs::Table::text_field))]
pub fn text_field<'a>(cursor: &mut Cursor<'a>) -> Result<Part<'a>, Wrong>
    ensures { Takes part_alone result cursor.old cursor.new (group_at text_field []) }
{
    field(cursor, 3, TEXT_FIELDS as u64)
}

/// nn;
#[tactic(auto, unfolding(crate::specs::Table::bar_field))]
pub fn bar_field<'a>(cursor: &mut Cursor<'a>) -> Result<Part<'a>, Wrong>
    ensures { Takes part_alone result cursor.old cursor.new (group_at bar_field []) }
{
    field(cursor, 2, BAR_FIELDS as u64)
}

/// xxxx,yyyy
#[tactic(auto, unfolding(crate::specs::Table::point))]
pub fn point_at<'a>(cursor: &mut Cursor<'a>) -> Result<Point<'a>, Wrong>
    ensures { Takes point_parts result cursor.old cursor.new (group_at point []) }
{
    let x = cursor.number(4, 0, 539)?;
    cursor.byte(b',')?;
    let y = cursor.number(4, 0, 499)?;
    Ok(Point { x, y })
}

/// ,w,h
#[tactic(auto, unfolding(crate::specs::Table::magnification))]
pub fn magnification_at<'a>(cursor: &mut Cursor<'a>) -> Result<Magnification<'a>, Wrong>
    ensures { Takes magnification_parts result cursor.old cursor.new (group_at magnification []) }
{
    cursor.byte(b',')?;
    let across = cursor.number(1, 1, 9)?;
    cursor.byte(b',')?;
    let down = cursor.number(1, 1, 9)?;
    Ok(Magnification { across, down })
}

/// ,f,rr,a
#[tactic(auto, unfolding(crate::specs::Table::lettering))]
pub fn lettering_at<'a>(cursor: &mut Cursor<'a>) -> Result<Lettering<'a>, Wrong>
    ensures { Takes lettering_parts result cursor.old cursor.new (group_at lettering []) }
{
    cursor.byte(b',')?;
    let font = cursor.part(ByteKind::Capital, 1)?;
    cursor.byte(b',')?;
    let rotation = one_of(cursor, 2, &[0, 11, 22, 33])?;
    cursor.byte(b',')?;
    let attribute = cursor.part(ByteKind::Capital, 1)?;
    Ok(Lettering {
        font,
        rotation,
        attribute,
    })
}

/// ,M0 or ,M1, or nothing
#[tactic(auto, unfolding(crate::specs::Table::check_option))]
pub fn check_option<'a>(cursor: &mut Cursor<'a>) -> Result<Option<Part<'a>>, Wrong>
    ensures { Takes option_alone result cursor.old cursor.new (group_at check_option []) }
{
    cursor.lettered(b'M', 1, 1, false)
}

/// What text and bar formats end with: a step, zero suppression and a source, each of which may be left out.
#[tactic(auto, unfolding(crate::specs::Table::extras))]
pub fn extras_at<'a>(cursor: &mut Cursor<'a>) -> Result<Extras<'a>, Wrong>
    ensures { Takes extras_parts result cursor.old cursor.new (group_at extras []) }
{
    let step = cursor.signed(10, false)?;
    let kept = cursor.lettered(b'Z', 2, LONGEST_FINISHED as u64, true)?;
    let source = cursor.source()?;
    Ok(Extras { step, kept, source })
}

/// ,t,c
#[tactic(auto, unfolding(crate::specs::Table::bar_type))]
pub fn bar_type<'a>(cursor: &mut Cursor<'a>) -> Result<BarType<'a>, Wrong>
    ensures { Takes type_parts result cursor.old cursor.new (group_at bar_type []) }
{
    cursor.byte(b',')?;
    let kind = one_of(cursor, 1, &[3, 9])?;
    cursor.byte(b',')?;
    let check = bar_check(cursor, kind)?;
    Ok(BarType { kind, check })
}

/// ,bb,bb,bb,bb,bb
#[tactic(auto, unfolding(crate::specs::Table::bar_widths))]
pub fn bar_widths<'a>(cursor: &mut Cursor<'a>) -> Result<Widths<'a>, Wrong>
    ensures { Takes widths_parts result cursor.old cursor.new (group_at bar_widths []) }
{
    cursor.byte(b',')?;
    let narrow_bar = cursor.part(ByteKind::Digit, 2)?;
    cursor.byte(b',')?;
    let narrow_space = cursor.part(ByteKind::Digit, 2)?;
    cursor.byte(b',')?;
    let wide_bar = cursor.part(ByteKind::Digit, 2)?;
    cursor.byte(b',')?;
    let wide_space = cursor.part(ByteKind::Digit, 2)?;
    cursor.byte(b',')?;
    let gap = cursor.part(ByteKind::Digit, 2)?;
    Ok(Widths {
        narrow_bar,
        narrow_space,
        wide_bar,
        wide_space,
        gap,
    })
}

/// ,k,hhhh
#[tactic(auto, unfolding(crate::specs::Table::bar_height))]
pub fn bar_height<'a>(cursor: &mut Cursor<'a>) -> Result<Height<'a>, Wrong>
    ensures { Takes height_parts result cursor.old cursor.new (group_at bar_height []) }
{
    cursor.byte(b',')?;
    let rotation = cursor.number(1, 0, 3)?;
    cursor.byte(b',')?;
    let height = cursor.part(ByteKind::Digit, 4)?;
    Ok(Height { rotation, height })
}

/// ;aaaa,bbbb,cccc,dddd of a line or a rectangle
#[tactic(auto, unfolding(crate::specs::Table::line_ends, crate::specs::Table::point))]
pub fn line_ends<'a>(cursor: &mut Cursor<'a>) -> Result<Ends<'a>, Wrong>
    ensures { Takes ends_parts result cursor.old cursor.new (group_at line_ends []) }
{
    cursor.byte(b';')?;
    let from = point_at(cursor)?;
    cursor.byte(b',')?;
    let x = cursor.number(4, 0, 539)?;
    cursor.byte(b',')?;
    let y = last_y_at(cursor, from.x, from.y, x)?;
    Ok(Ends {
        from,
        to: Point { x, y },
    })
}

/// ,e,f
#[tactic(auto, unfolding(crate::specs::Table::line_shape))]
pub fn line_shape<'a>(cursor: &mut Cursor<'a>) -> Result<Shape<'a>, Wrong>
    ensures { Takes shape_parts result cursor.old cursor.new (group_at line_shape []) }
{
    cursor.byte(b',')?;
    let kind = cursor.number(1, 0, 1)?;
    cursor.byte(b',')?;
    let dots = cursor.number(1, 1, 9)?;
    Ok(Shape { kind, dots })
}

/// A comma and one of two letters
#[tactic(auto, unfolding(crate::specs::Table::comma_letter))]
pub fn comma_letter<'a>(cursor: &mut Cursor<'a>, one: u8, other: u8) -> Result<Part<'a>, Wrong>
    ensures { let read = group_at (comma_letter (one ∷ other ∷ [])) [] in
        Takes part_alone result cursor.old cursor.new read }
{
    cursor.byte(b',')?;
    letter(cursor, one, other)
}

/// ;I,nnnn,ccc
#[tactic(auto, unfolding(crate::specs::Table::issue_count))]
pub fn issue_count<'a>(cursor: &mut Cursor<'a>) -> Result<Count<'a>, Wrong>
    ensures { Takes count_parts result cursor.old cursor.new (group_at issue_count []) }
{
    cursor.byte(b';')?;
    cursor.byte(b'I')?;
    cursor.byte(b',')?;
    let labels = cursor.number(4, 1, 9999)?;
    cursor.byte(b',')?;
    let cut = cursor.number(3, 0, 100)?;
    Ok(Count { labels, cut })
}

/// smvrgh
#[tactic(auto, unfolding(crate::specs::Table::issue_setup))]
pub fn issue_setup<'a>(cursor: &mut Cursor<'a>) -> Result<Setup<'a>, Wrong>
    ensures { Takes setup_parts result cursor.old cursor.new (group_at issue_setup []) }
{
    let sensor = cursor.part(ByteKind::Digit, 1)?;
    let mode = cursor.part(ByteKind::Capital, 1)?;
    let speed = cursor.part(ByteKind::CapitalOrDigit, 1)?;
    let ribbon = cursor.part(ByteKind::Digit, 1)?;
    let rotation = cursor.part(ByteKind::Digit, 1)?;
    let response = cursor.part(ByteKind::Digit, 1)?;
    Ok(Setup {
        sensor,
        mode,
        speed,
        ribbon,
        rotation,
        response,
    })
}

/// ;nn,b
#[tactic(auto, unfolding(crate::specs::Table::form))]
pub fn form_at<'a>(cursor: &mut Cursor<'a>) -> Result<Form<'a>, Wrong>
    ensures { Takes form_parts result cursor.old cursor.new (group_at form []) }
{
    cursor.byte(b';')?;
    let form = cursor.number(2, 1, u64::from(LAST_FORM))?;
    cursor.byte(b',')?;
    let response = cursor.number(1, 0, 1)?;
    Ok(Form { form, response })
}
