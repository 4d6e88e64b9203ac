// The library for a host in C or Rust: every call on numbers and lent buffers, as include/wunqaber.h
// declares it. Each is the call of the same name in a host_.. crate, with the same promise.
#![tactic(auto)]

ghost use Rattle.std.specs.Prelude.{◌≡◌, length};
ghost use Rattle.host_answers.specs.HostAnswers.{outcome_number, Tells};
ghost use Rattle.host_figures.specs.Figures.{contains_said, row_said, offset_said, confined_radii_said, ellipse_with_center_said};
ghost use Rattle.host_points.specs.Points.{points_said, pairs_after};
ghost use Rattle.host_styled.specs.Styled.{styled_row_said, styled_bounding_box_said};
ghost use Rattle.sheet_calls.specs.SheetCalls.{run_answer};
ghost use Rattle.host_paint.specs.Paint.{paint_said, painted_after};
ghost use Rattle.host_calls.specs.Calls.{run_number, RunTold};
ghost use Rattle.netpbm_header.specs.declared.Format.TheVariants.{P4, P5};
ghost use Rattle.host_netpbm.specs.Netpbm.{write_said, written_after, read_said, read_after};
ghost use Rattle.host_sheet.specs.Sheets.{open_said, add_told, add_numbers, paint_told, paint_numbers, paint_canvas};
ghost use Rattle.host_sheet.specs.Sheets.{remove_told, remove_numbers, remove_canvas};

// Whether a point is inside, as 1 or 0. Refused by 1, 2, 3, 4 and 13.
#[unsafe(no_mangle)]
pub extern "C" fn wunqaber_contains(figure: &[i32], x: i32, y: i32, out: &mut [i32]) -> u32
    ensures { Tells (contains_said figure.now x y) out.old result out.new }
{
    host_figures::contains(figure, x, y, out)
}

// A row's y and its run. Refused by 1, 2, 3, 4 and 13.
#[unsafe(no_mangle)]
pub extern "C" fn wunqaber_row(figure: &[i32], y: i32, out: &mut [i32]) -> u32
    ensures { Tells (row_said figure.now y) out.old result out.new }
{
    host_figures::row(figure, y, out)
}

// The points into a list, and their number. Refused by 1, 2, 3 and 13.
#[unsafe(no_mangle)]
pub extern "C" fn wunqaber_points(figure: &[i32], list: &mut [i32], out: &mut [i32]) -> u32
    ensures tells { Tells (points_said figure.now list.old (length out.old)) out.old result
        out.new }
    ensures list_after { list.new ≡ pairs_after figure.now list.old (length out.old) }
{
    host_points::points(figure, list, out)
}

// The figure offset by k. Refused by 1, 2, 3, 5 and 13.
#[unsafe(no_mangle)]
pub extern "C" fn wunqaber_offset(figure: &[i32], k: i32, out: &mut [i32]) -> u32
    ensures { Tells (offset_said figure.now k) out.old result out.new }
{
    host_figures::offset(figure, k, out)
}

// The radii as confined to the box, with L and S. Refused by 1, 2, 3 and 13.
#[unsafe(no_mangle)]
pub extern "C" fn wunqaber_confined_radii(figure: &[i32], out: &mut [i32]) -> u32
    ensures { Tells (confined_radii_said figure.now) out.old result out.new }
{
    host_figures::confined_radii(figure, out)
}

// The ellipse of a size about a centre. Refused by 1, 3 and 13.
#[unsafe(no_mangle)]
pub extern "C" fn wunqaber_ellipse_with_center(
    x: i32,
    y: i32,
    width: u32,
    height: u32,
    out: &mut [i32],
) -> u32
    ensures { Tells (ellipse_with_center_said x y width height) out.old result out.new }
{
    host_figures::ellipse_with_center(x, y, width, height, out)
}

// A styled row's y and its three runs. Refused by 1, 2, 3, 4, 5 and 13.
#[unsafe(no_mangle)]
pub extern "C" fn wunqaber_styled_row(figure: &[i32], style: &[i32], y: i32, out: &mut [i32]) -> u32
    ensures { Tells (styled_row_said figure.now style.now y) out.old result out.new }
{
    host_styled::styled_row(figure, style, y, out)
}

// The rectangle that a styled figure keeps to. Refused by 1, 2, 3, 5 and 13.
#[unsafe(no_mangle)]
pub extern "C" fn wunqaber_styled_bounding_box(
    figure: &[i32],
    style: &[i32],
    out: &mut [i32],
) -> u32
    ensures { Tells (styled_bounding_box_said figure.now style.now) out.old result out.new }
{
    host_styled::styled_bounding_box(figure, style, out)
}

// The figure painted on the canvas. Refused by 1, 2, 3, 5, 6 and 8.
#[unsafe(no_mangle)]
pub extern "C" fn wunqaber_paint_figure(
    figure: &[i32],
    style: &[i32],
    width: u32,
    height: u32,
    canvas: &mut [u8],
) -> u32
    ensures value { result ≡ outcome_number (paint_said figure.now style.now width height canvas.old) }
    ensures canvas_after { canvas.new ≡ painted_after figure.now style.now width height canvas.old }
{
    host_paint::paint_figure(figure, style, width, height, canvas)
}

// The numbers of a sheet without layers. Refused by 6 and 13.
#[unsafe(no_mangle)]
pub extern "C" fn wunqaber_sheet_open(width: u32, height: u32, sheet: &mut [i32]) -> u32
    ensures { Tells (open_said width height) sheet.old result sheet.new }
{
    host_sheet::open(width, height, sheet)
}

// A figure more on top. Refused by 1, 2, 3, 5, 7 and 9.
#[unsafe(no_mangle)]
pub extern "C" fn wunqaber_sheet_add(sheet: &mut [i32], figure: &[i32], style: &[i32]) -> u32
    ensures value { result ≡ add_told sheet.old figure.now style.now }
    ensures sheet_after { sheet.new ≡ add_numbers sheet.old figure.now style.now }
{
    host_sheet::add(sheet, figure, style)
}

// The next row of a layer painted. Refused by 7, 8, 10, 11 and 12.
#[unsafe(no_mangle)]
pub extern "C" fn wunqaber_sheet_paint(sheet: &mut [i32], layer: u32, canvas: &mut [u8]) -> u32
    ensures value { result ≡ paint_told sheet.old layer canvas.old }
    ensures sheet_after { sheet.new ≡ paint_numbers sheet.old layer canvas.old }
    ensures canvas_after { canvas.new ≡ paint_canvas sheet.old layer canvas.old }
{
    host_sheet::paint(sheet, layer, canvas)
}

// A layer removed, its rows shown anew over the background. Refused by 7, 8 and 10.
#[unsafe(no_mangle)]
pub extern "C" fn wunqaber_sheet_remove(
    sheet: &mut [i32],
    layer: u32,
    canvas: &mut [u8],
    background: &[u8],
) -> u32
    ensures value { result ≡ remove_told sheet.old layer canvas.old background.now }
    ensures sheet_after { sheet.new ≡ remove_numbers sheet.old layer canvas.old background.now }
    ensures canvas_after { canvas.new ≡ remove_canvas sheet.old layer canvas.old background.now }
    ensures background_value { background.exit.now ≡ background.entry.now }
{
    host_sheet::remove(sheet, layer, canvas, background)
}

// A list of sheet calls run from a sheet just opened, with one background for its removals, and the
// answer of each. Refused by 6, 8 and 13; the background is looked at by a removal alone.
#[unsafe(no_mangle)]
pub extern "C" fn wunqaber_run_calls(
    width: u32,
    height: u32,
    calls: &[i32],
    canvas: &mut [u8],
    background: &[u8],
    answers: &mut [u32],
) -> u32
    ensures value { result ≡ run_number (run_answer width height calls.now (length canvas.old)
        (length answers.old)) }
    ensures run_told { RunTold width height calls.now canvas.old background.now answers.old
        canvas.new answers.new }
    ensures background_value { background.exit.now ≡ background.entry.now }
{
    host_calls::run_calls(width, height, calls, canvas, background, answers)
}

// The canvas as P5, and the length of the file. Refused by 6, 8 and 13.
#[unsafe(no_mangle)]
pub extern "C" fn wunqaber_write_p5(
    width: u32,
    height: u32,
    canvas: &[u8],
    file: &mut [u8],
    out: &mut [i32],
) -> u32
    ensures tells { Tells (write_said P5 width height canvas.now file.old (length out.old))
        out.old result out.new }
    ensures file_after { file.new ≡ written_after P5 width height canvas.now file.old
        (length out.old) }
{
    host_netpbm::write_p5(width, height, canvas, file, out)
}

// The canvas as P4, and the length of the file. Refused by 6, 8 and 13.
#[unsafe(no_mangle)]
pub extern "C" fn wunqaber_write_p4(
    width: u32,
    height: u32,
    canvas: &[u8],
    file: &mut [u8],
    out: &mut [i32],
) -> u32
    ensures tells { Tells (write_said P4 width height canvas.now file.old (length out.old))
        out.old result out.new }
    ensures file_after { file.new ≡ written_after P4 width height canvas.now file.old
        (length out.old) }
{
    host_netpbm::write_p4(width, height, canvas, file, out)
}

// A P4 or P5 file read into a canvas of its size, and its width and height. Refused by 14, 6, 8, 13 and
// 15, looked for in this order.
#[unsafe(no_mangle)]
pub extern "C" fn wunqaber_read_netpbm(file: &[u8], canvas: &mut [u8], out: &mut [i32]) -> u32
    ensures tells { Tells (read_said file.now canvas.old (length out.old)) out.old result
        out.new }
    ensures canvas_after { canvas.new ≡ read_after file.now canvas.old (length out.old) }
{
    host_netpbm::read(file, canvas, out)
}
