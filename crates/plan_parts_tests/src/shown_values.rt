//! Rows in print.

use crate::given::{bytes, list, row};
use changes::ShownRow;
use cql_values::CqlValue;
use cs_base::Items;
use row_values::{
    clustering_values_come_back, each_column_has_a_value, keys_come_back, push_lines, push_values,
    values_are_determined, values_are_of_types, values_of,
};
use schema_book::ColumnDef;
use std::alloc::{AllocError, Global};
use std::test::Fail;

/// A row of a table, and what it is printed as.
struct ShownCase<'a> {
    columns: &'a str,
    key: &'a str,
    row: &'a str,
    cells: &'a str,
    shown: &'a [u8],
    text: &'a str,
}

/// Whether each column has a value of its type, or none.
fn are_of_types(columns: &[ColumnDef], values: &[Option<CqlValue>]) -> bool {
    for (place, column) in columns.iter().enumerate() {
        match values.get(place) {
            None => return false,
            Some(Some(value)) if value.type_of() != column.ty => return false,
            _ => {}
        }
    }
    values.len() == columns.len()
}

/// Prints the values of a row, behind a sign.
fn push_row(
    alloc: Global,
    out: &mut Vec<u8>,
    columns: &[ColumnDef],
    key: &[u8],
    shown: &[u8],
    row: &ShownRow,
) -> Result<(), AllocError> {
    let values = values_of(alloc, columns, key, row)?;
    let sign = if are_of_types(columns, values.as_slice()) {
        b"> "
    } else {
        b"! "
    };
    out.extend_from_slice(sign)?;
    push_values(alloc, out, values.as_slice(), shown)?;
    out.extend_from_slice(b"\n")
}

/// The values of each row, and then the lines of the rows.
fn printed(
    alloc: Global,
    columns: &[ColumnDef],
    key: &[u8],
    shown: &[u8],
    rows: &[ShownRow],
) -> Result<Vec<u8>, AllocError> {
    let mut out = Vec::new(alloc);
    for row in rows {
        push_row(alloc, &mut out, columns, key, shown, row)?;
    }
    push_lines(alloc, &mut out, columns, key, shown, rows)?;
    Ok(out)
}

/// The row, and the same once more.
fn rows(alloc: Global, case: &ShownCase) -> Result<Items<ShownRow>, AllocError> {
    let mut rows = Items::new(alloc);
    for _ in 0..2 {
        rows.push(row(alloc, case.row, case.cells)?)?;
    }
    Ok(rows)
}

fn printed_of(alloc: Global, case: &ShownCase) -> Result<Vec<u8>, AllocError> {
    let columns = list(alloc, case.columns)?;
    let key = bytes(alloc, case.key)?;
    let rows = rows(alloc, case)?;
    printed(
        alloc,
        columns.as_slice(),
        key.as_slice(),
        case.shown,
        rows.as_slice(),
    )
}

/// Whether the text is printed of the row's values, and of their line.
fn is_printed(alloc: Global, case: &ShownCase) -> Result<bool, AllocError> {
    let text = case.text;
    let expected = format!(in alloc; "> {text}\n> {text}\n {text}\n {text}\n")?;
    Ok(printed_of(alloc, case)?.as_slice() == expected.as_bytes())
}

/// A partition key of an int, a text as clustering column, and another text.
const PLAIN: ShownCase = ShownCase {
    columns: "p:int c:text v:text",
    key: "00000007",
    row: "697427730000",
    cells: "2=78",
    shown: &[0, 1, 2],
    text: "7 | 'it''s' | 'x'",
};

/// A key of two columns.
const PAIR: ShownCase = ShownCase {
    columns: "p:int p:text v:int",
    key: "0004000000010000016100",
    row: "",
    cells: "2=ffffffff",
    shown: &[0, 1, 2],
    text: "1 | 'a' | -1",
};

const CASES: [ShownCase; 25] = [
    // Rows of Cassandra's types. Encodings and literals are those of the DataStax Python driver.
    PLAIN,
    PAIR,
    ShownCase {
        columns: "p:text c:timeuuid d:int c:boolean d:text c:tinyint",
        key: "61",
        row: "0af94ffc17921e6c17921e6c4ffc1af9944ecc7c2d6f2efc7ffffffe019effff00",
        cells: "",
        shown: &[1, 2, 3, 4, 5],
        text: "17921e6c-4ffc-1af9-944e-cc7c2d6f2efc | 1 | true | 'a' | -128",
    },
    ShownCase {
        columns: "p:ascii v:bigint v:blob v:boolean v:smallint v:timestamp v:uuid",
        key: "69742773",
        row: "",
        cells: "1=a06f5c6671e0c07e 2=e8f9 3=00 4=d04e 5=0000015d3ef7987b 6=8b8e8f4eb3de48f9ac9837044692ba03",
        shown: &[0, 1, 2, 3, 4, 5, 6],
        text: "'it''s' | -6886183710159224706 | 0xe8f9 | false | -12210 | 1500000000123 | 8b8e8f4e-b3de-48f9-ac98-37044692ba03",
    },
    // Which columns are shown, and columns without a cell.
    ShownCase {
        shown: &[],
        text: "",
        ..PLAIN
    },
    ShownCase {
        shown: &[2, 0, 9, 0],
        text: "'x' | 7 | null | 7",
        ..PLAIN
    },
    ShownCase {
        cells: "",
        text: "7 | 'it''s' | null",
        ..PLAIN
    },
    ShownCase {
        cells: "1=79 3=7a",
        text: "7 | 'it''s' | null",
        ..PLAIN
    },
    ShownCase {
        columns: "p:int c:text v:text v:int",
        cells: "3=00000005",
        shown: &[0, 2, 3],
        text: "7 | null | 5",
        ..PLAIN
    },
    // Texts with quotes, zeros and characters outside ASCII.
    ShownCase {
        row: "c3a90000",
        cells: "2=69742773",
        text: "7 | 'é' | 'it''s'",
        ..PLAIN
    },
    ShownCase {
        row: "0000",
        cells: "2=c3a9",
        text: "7 | '' | 'é'",
        ..PLAIN
    },
    ShownCase {
        row: "6100ff620000",
        cells: "2=",
        text: "7 | 'a\0b' | ''",
        ..PLAIN
    },
    // Keys and cells that are no values.
    ShownCase {
        key: "000007",
        text: "null | 'it''s' | 'x'",
        ..PLAIN
    },
    ShownCase {
        cells: "2=ff",
        text: "7 | 'it''s' | null",
        ..PLAIN
    },
    // The second part has a byte behind it that is not zero, or none.
    ShownCase {
        key: "0004000000010000016101",
        text: "1 | null | -1",
        ..PAIR
    },
    ShownCase {
        key: "00040000000100000161",
        text: "1 | null | -1",
        ..PAIR
    },
    // So has the first.
    ShownCase {
        key: "0004000000010100016100",
        text: "null | null | -1",
        ..PAIR
    },
    // A first part that is none of its type.
    ShownCase {
        key: "00030000010000016100",
        text: "null | 'a' | -1",
        ..PAIR
    },
    ShownCase {
        key: "00",
        text: "null | null | -1",
        ..PAIR
    },
    // Rows that are no order bytes.
    ShownCase {
        row: "69740001",
        text: "7 | null | 'x'",
        ..PLAIN
    },
    ShownCase {
        columns: "p:int c:boolean c:boolean c:boolean",
        row: "010201",
        shown: &[1, 2, 3],
        text: "true | null | null",
        ..PLAIN
    },
    ShownCase {
        columns: "p:int c:int c:boolean",
        row: "800000",
        shown: &[1, 2],
        text: "null | null",
        ..PLAIN
    },
    ShownCase {
        columns: "p:int c:uuid c:boolean",
        row: "01",
        shown: &[1, 2],
        text: "null | null",
        ..PLAIN
    },
    // Bytes behind the last value.
    ShownCase {
        columns: "p:int c:boolean",
        row: "0102",
        shown: &[1],
        text: "true",
        ..PLAIN
    },
    // A key whose first part has a length of two bytes.
    ShownCase {
        columns: "p:blob p:text",
        key: around_sevens!("0102", "00000000"),
        row: "",
        cells: "",
        shown: &[0, 1],
        text: around_sevens!("0x", " | ''"),
    },
];

#[test]
fn rows_are_printed(rt: HostRuntime) -> Result<(), Fail> {
    for case in &CASES {
        assert!(rt; is_printed(rt.alloc(), case)?, "{}", case.text);
    }
    keys_come_back();
    clustering_values_come_back();
    each_column_has_a_value();
    values_are_determined();
    values_are_of_types();
    Ok(())
}
