use sheet::Sheet;

/// Adds a line in which `\r` stands for a CR and `\t` for a tab, and its LF unless it ends with `\`. `None` where another letter
/// stands behind a `\`.
pub fn put_line(sheet: &mut Sheet, line: &str) -> Option<()> {
    let mut pieces = line.split('\\');
    sheet.push(pieces.next().unwrap_or(""));
    let mut is_open = false;
    for piece in pieces {
        if is_open {
            return None;
        }
        is_open = piece.is_empty();
        put_escaped(sheet, piece)?;
    }
    if !is_open {
        sheet.push("\n");
    }
    Some(())
}

/// Adds what stands behind a `\`, up to the next one.
fn put_escaped(sheet: &mut Sheet, piece: &str) -> Option<()> {
    if let Some(rest) = piece.strip_prefix('r') {
        sheet.push("\r");
        sheet.push(rest);
        return Some(());
    }
    if let Some(rest) = piece.strip_prefix('t') {
        sheet.push("\t");
        sheet.push(rest);
        return Some(());
    }
    if piece.is_empty() { Some(()) } else { None }
}
