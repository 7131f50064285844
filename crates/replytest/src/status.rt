// Status replies: no sign, one sign, and more rows than a reply has.
use crate::print_reply;
use calendar::DateTime;
use replies::{Named, Reply, Row, Status};
use std::{array, io};

pub(crate) fn print_short(rt: &impl Print) -> io::Result<()> {
    let at = DateTime {
        day: 1,
        month: 2,
        year: 2000,
        hour: 3,
        minute: 4,
        second: 5,
    };
    let status = Status {
        online: false,
        application_error: 0,
        at,
        checksum: 0,
    };
    print_reply(rt, "status", &Reply::status(status, &[]))?;
    let row = Row {
        sign: 1,
        error_code: 0x0B,
        enabled: true,
        frame: Some(Named {
            number: 5,
            revision: 2,
        }),
        message: None,
        plan: Some(Named {
            number: 9,
            revision: 255,
        }),
    };
    print_reply(rt, "status", &Reply::status(status, &[row]))
}

pub(crate) fn print_full(rt: &impl Print) -> io::Result<()> {
    let at = DateTime {
        day: 31,
        month: 12,
        year: 9999,
        hour: 23,
        minute: 59,
        second: 58,
    };
    let status = Status {
        online: true,
        application_error: 0x46,
        at,
        checksum: 0xBEEF,
    };
    let rows: [Row; 14] = array::from_fn(|i| {
        let i = i as u8;
        Row {
            sign: i + 1,
            error_code: 16 + i,
            enabled: i % 2 == 1,
            frame: Some(Named {
                number: 32 + i,
                revision: 48 + i,
            }),
            message: Some(Named {
                number: 64 + i,
                revision: 80 + i,
            }),
            plan: Some(Named {
                number: 96 + i,
                revision: 112 + i,
            }),
        }
    });
    print_reply(rt, "status", &Reply::status(status, rows.split_at(12).0))?;
    print_reply(rt, "status", &Reply::status(status, &rows))
}
