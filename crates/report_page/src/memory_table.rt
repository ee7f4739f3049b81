//! The tables of memory by address.

use crate::named::{memory_of, write_link};
use crate::sets::write_set;
use crate::words::space_word;
use marked_text::{Markup, Piece};
use report_program::{Accesses, Functions, Kind, Row};
use symbol_lists::Names;

/// The accesses by address, and those of the stack apart.
pub fn memory_tables(
    page: &mut Markup,
    names: &Names<'_>,
    functions: &Functions,
    accesses: &Accesses<'_>,
) {
    if accesses.rows.is_empty() {
        return;
    }
    page.put("<h2 id=memory>Memory by address</h2>\n");
    table(
        page,
        names,
        functions,
        accesses,
        false,
        "Who reads and writes at each address. An address may stand in several rows. Where a handler and other code share one that is written, the row is marked.",
    );
    if !accesses.rows.values().any(|row| row.is_stack) {
        return;
    }
    page.put("<details><summary>Accesses within the stack</summary>\n");
    table(
        page,
        names,
        functions,
        accesses,
        true,
        "Pushes, pops, calls, returns, and what else lies within the stack.",
    );
    page.put("</details>\n")
}

/// The accesses of the stack, or all others.
fn table(
    page: &mut Markup,
    names: &Names<'_>,
    functions: &Functions,
    accesses: &Accesses<'_>,
    of_stack: bool,
    caption: &str,
) {
    page.put_all(&[
        Piece::Marks("<div class=scroll><table class=f><caption>"),
        Piece::Marks(caption),
        Piece::Marks(
            "</caption>\n<thead><tr><th scope=col>Addresses<th scope=col>Read at<th scope=col>Written at<th scope=col>From</thead>\n<tbody>\n",
        ),
    ]);
    for row in accesses.rows.values() {
        if row.is_stack == of_stack {
            memory_row(page, names, functions, row);
        }
    }
    page.put("</table></div>\n")
}

/// The row of some addresses.
fn memory_row(page: &mut Markup, names: &Names<'_>, functions: &Functions, row: &Row<'_>) {
    let is_shared = row.is_shared() && !row.is_stack;
    page.put_all(&[
        Piece::Marks(if is_shared {
            "<tr class=x><th scope=row>"
        } else {
            "<tr><th scope=row>"
        }),
        space_word(row.space),
    ]);
    write_set(page, &row.at, Some((names, memory_of(row.space))));
    page.put("<td class=a>");
    places(page, names, &row.readers);
    page.put("<td class=a>");
    places(page, names, &row.writers);
    page.put("<td class=a>");
    roots(page, names, functions, row);
    page.put(if is_shared { "<em>shared</em>\n" } else { "\n" })
}

/// From where control comes to the accesses of a row.
fn roots(page: &mut Markup, names: &Names<'_>, functions: &Functions, row: &Row<'_>) {
    for root in row.roots.iter() {
        page.put_all(&[begin_of(functions, *root)]);
        write_link(page, names, *root);
        page.put(" ");
    }
}

/// What begins there.
fn begin_of(functions: &Functions, root: u16) -> Piece<'static> {
    Piece::Marks(match functions.by_entry.get(&root) {
        Some(function) if function.kind == Kind::Handler => "handler ",
        _ => "reset ",
    })
}

/// How many places a row names.
const MOST_PLACES: usize = 24;

/// Links to some instructions, and how many more there are.
fn places(page: &mut Markup, names: &Names<'_>, sites: &Vec<u16>) {
    for site in sites.iter().take(MOST_PLACES) {
        write_link(page, names, *site);
        page.put(" ");
    }
    if sites.len() > MOST_PLACES {
        page.put_all(&[
            Piece::Marks("and "),
            Piece::Number(sites.len().wrapping_sub(MOST_PLACES)),
            Piece::Marks(" more"),
        ]);
    }
}
