//! The rows of views, each a line, with the rows to which it leads.
ghost use Rattle.std.specs.Prelude.{◌≡◌, ◌+◌, ◌≤◌, ◌<◌, true};
ghost use Rattle.view_types.specs.Spans.{has_spans, is_union};
ghost use Rattle.view_types.specs.Views.{layout_of, rows_of, IsRow};
ghost use Rattle.view_types.specs.declared.layout.Layout.TheVariants.{Struct};

use arrow_spec::IpcError;
use ipc_mmap::{ArrayView, Layout};

/// The hex text of some bytes, and its line.
fn show_bytes(
    rt: &HostRuntime,
    path: &str,
    row: usize,
    name: &str,
    bytes: &[u8],
    place: usize,
) -> Result<(), IpcError> {
    let text = hex::encode(rt.alloc(), bytes)?;
    let _ = println!(rt; "{path} {row} {name} {text} @{place}");
    Ok(())
}

/// The line of a row of an array without children.
fn show_value(
    rt: &HostRuntime,
    path: &str,
    view: &ArrayView<'_>,
    row: usize,
) -> Result<(), IpcError>
    requires { IsRow view.now row }
{
    match view.layout() {
        Layout::Boolean => {
            let (value, place) = (view.boolean(row), view.place(row));
            let _ = println!(rt; "{path} {row} bool {value} @{place}");
        }
        Layout::Number(_) => {
            let (value, place) = (view.number(row), view.place(row));
            let _ = println!(rt; "{path} {row} num {value} @{place}");
        }
        Layout::DayTime | Layout::MonthDayNano => {
            let (first, second, third) = view.interval(row);
            let place = view.place(row);
            let _ = println!(rt; "{path} {row} ival {first} {second} {third} @{place}");
        }
        Layout::Bytes { is_text: true, .. } | Layout::Views { is_text: true } => {
            let text = view.text(row);
            show_bytes(rt, path, row, "text", text.as_bytes(), view.place(row))?;
        }
        Layout::Bytes { .. } | Layout::Views { .. } | Layout::FixedBytes { .. } => {
            show_bytes(rt, path, row, "bytes", view.bytes(row), view.place(row))?;
        }
        _ => (),
    }
    Ok(())
}

/// The line of a row of structs, and those of each child.
#[cycle(rows)]
fn show_struct(
    rt: &HostRuntime,
    path: &str,
    view: &ArrayView<'_>,
    row: usize,
) -> Result<(), IpcError>
    requires layout { layout_of view.now ≡ Struct }
    requires row { row < rows_of view.now }
{
    let _ = println!(rt; "{path} {row} struct");
    for i in 0..view.child_count() {
        let below = format!(in rt.alloc(); "{path}.{i}")?;
        show_row(rt, &below, view.child(i), row)?;
    }
    Ok(())
}

/// The line of a row that leads to rows of a child, and the lines of these.
#[cycle(rows)]
fn show_span(rt: &HostRuntime, path: &str, view: &ArrayView<'_>, row: usize) -> Result<(), IpcError>
    requires layout { has_spans (layout_of view.now) ≡ true }
    requires row { IsRow view.now row }
{
    let (child, first, count) = view.child_rows(row);
    if let Layout::Union(_) = view.layout() {
        let tag = view.tag(row);
        let _ = println!(rt; "{path} {row} tag {tag} {child} {first} {count}");
    } else {
        let _ = println!(rt; "{path} {row} rows {child} {first} {count}");
    }
    if count == 0 {
        return Ok(());
    }
    let below = format!(in rt.alloc(); "{path}.{child}")?;
    show_rows(rt, &below, view.child(child), first, count)
}

/// The line of a row, and of the rows to which it leads.
#[cycle(rows)]
fn show_row(rt: &HostRuntime, path: &str, view: &ArrayView<'_>, row: usize) -> Result<(), IpcError>
    requires { row < rows_of view.now }
{
    if view.is_null(row) {
        let _ = println!(rt; "{path} {row} null");
        return Ok(());
    }
    match view.layout() {
        Layout::Struct => show_struct(rt, path, view, row),
        Layout::Lists { .. }
        | Layout::FixedLists { .. }
        | Layout::Union(_)
        | Layout::Dictionary(_) => show_span(rt, path, view, row),
        _ => show_value(rt, path, view, row),
    }
}

/// The lines of so many rows from one on.
#[cycle(rows)]
pub(crate) fn show_rows(
    rt: &HostRuntime,
    path: &str,
    view: &ArrayView<'_>,
    first: usize,
    count: usize,
) -> Result<(), IpcError>
    requires { first + count ≤ rows_of view.now }
{
    let _rows = view.len();
    for i in 0..count {
        show_row(rt, path, view, first + i)?;
    }
    Ok(())
}
