use super::*;
use memory::OutOfMemory;
use node_table::ClientId;
use std::alloc::Global;
use std::process::Abort;
use std::test::Fail;

/// A line of a log of client 129, what it is as JSON (RFC 8259), and its row of CSV (RFC 4180).
struct Worked {
    line: &'static [u8],
    json: &'static [u8],
    csv: &'static [u8],
}

const TABLE: &[Worked] = &[
    Worked {
        line: b"5 port 0 90 3C 40",
        json: b"{\"entry\":\"delivery\",\"client\":129,\"moment\":5,\"port\":0,\"bytes\":\"90 3C 40\",\
            \"kind\":\"note_on\",\"channel\":1,\"note\":60,\"velocity\":64}\n",
        csv: b"delivery,129,,5,0,,,note_on,1,60,64,90 3C 40\n",
    },
    Worked {
        line: b"got 5 port 15 8F 00 7F",
        json: b"{\"entry\":\"received\",\"client\":129,\"moment\":5,\"port\":15,\"bytes\":\"8F 00 7F\",\
            \"kind\":\"note_off\",\"channel\":16,\"note\":0,\"velocity\":127}\n",
        csv: b"received,129,,5,15,,,note_off,16,0,127,8F 00 7F\n",
    },
    Worked {
        line: b"5 line 3 ok",
        json: b"{\"entry\":\"reply\",\"client\":129,\"moment\":5,\"line\":3,\"outcome\":\"ok\"}\n",
        csv: b"reply,129,3,5,,ok,,,,,,\n",
    },
    Worked {
        line: b"0 line 12 ok 3",
        json: b"{\"entry\":\"reply\",\"client\":129,\"moment\":0,\"line\":12,\"outcome\":\"ok\",\"count\":3}\n",
        csv: b"reply,129,12,0,,ok,3,,,,,\n",
    },
    Worked {
        line: b"5 line 3 ok running 480 500000000",
        json: b"{\"entry\":\"reply\",\"client\":129,\"moment\":5,\"line\":3,\"outcome\":\"ok\",\
            \"queue\":\"running\",\"tick\":480,\"nanos\":500000000}\n",
        csv: b"reply,129,3,5,,ok,running 480 500000000,,,,,\n",
    },
    Worked {
        line: b"5 line 3 ok stopped 0 140",
        json: b"{\"entry\":\"reply\",\"client\":129,\"moment\":5,\"line\":3,\"outcome\":\"ok\",\
            \"queue\":\"stopped\",\"tick\":0,\"nanos\":140}\n",
        csv: b"reply,129,3,5,,ok,stopped 0 140,,,,,\n",
    },
    Worked {
        line: b"40 line 12 ok waiting 3 lost 0 used 1",
        json: b"{\"entry\":\"reply\",\"client\":129,\"moment\":40,\"line\":12,\"outcome\":\"ok\",\
            \"waiting\":3,\"lost\":0,\"used\":1}\n",
        csv: b"reply,129,12,40,,ok,waiting 3 lost 0 used 1,,,,,\n",
    },
    Worked {
        line: b"5 line 3 refused 10 NotPermitted",
        json: b"{\"entry\":\"reply\",\"client\":129,\"moment\":5,\"line\":3,\"outcome\":\"refused\",\
            \"refusal\":10,\"name\":\"NotPermitted\"}\n",
        csv: b"reply,129,3,5,,refused,10 NotPermitted,,,,,\n",
    },
    Worked {
        line: b"skip 2 past-end",
        json: b"{\"entry\":\"skip\",\"client\":129,\"line\":2,\"reason\":\"past-end\"}\n",
        csv: b"skip,129,2,,,,past-end,,,,,\n",
    },
    Worked {
        line: b"7 port 1 A2 3C 01",
        json: b"{\"entry\":\"delivery\",\"client\":129,\"moment\":7,\"port\":1,\"bytes\":\"A2 3C 01\",\
            \"kind\":\"poly_pressure\",\"channel\":3,\"note\":60,\"pressure\":1}\n",
        csv: b"delivery,129,,7,1,,,poly_pressure,3,60,1,A2 3C 01\n",
    },
    Worked {
        line: b"7 port 1 B9 07 7F",
        json: b"{\"entry\":\"delivery\",\"client\":129,\"moment\":7,\"port\":1,\"bytes\":\"B9 07 7F\",\
            \"kind\":\"control_change\",\"channel\":10,\"controller\":7,\"value\":127}\n",
        csv: b"delivery,129,,7,1,,,control_change,10,7,127,B9 07 7F\n",
    },
    Worked {
        line: b"7 port 1 C0 05",
        json: b"{\"entry\":\"delivery\",\"client\":129,\"moment\":7,\"port\":1,\"bytes\":\"C0 05\",\
            \"kind\":\"program_change\",\"channel\":1,\"program\":5}\n",
        csv: b"delivery,129,,7,1,,,program_change,1,5,,C0 05\n",
    },
    Worked {
        line: b"7 port 1 D1 40",
        json: b"{\"entry\":\"delivery\",\"client\":129,\"moment\":7,\"port\":1,\"bytes\":\"D1 40\",\
            \"kind\":\"channel_pressure\",\"channel\":2,\"pressure\":64}\n",
        csv: b"delivery,129,,7,1,,,channel_pressure,2,64,,D1 40\n",
    },
    // The centre of the bender, and its greatest value.
    Worked {
        line: b"7 port 1 E0 00 40",
        json: b"{\"entry\":\"delivery\",\"client\":129,\"moment\":7,\"port\":1,\"bytes\":\"E0 00 40\",\
            \"kind\":\"pitch_bend\",\"channel\":1,\"value\":8192}\n",
        csv: b"delivery,129,,7,1,,,pitch_bend,1,0,64,E0 00 40\n",
    },
    Worked {
        line: b"7 port 1 E0 7F 7F",
        json: b"{\"entry\":\"delivery\",\"client\":129,\"moment\":7,\"port\":1,\"bytes\":\"E0 7F 7F\",\
            \"kind\":\"pitch_bend\",\"channel\":1,\"value\":16383}\n",
        csv: b"delivery,129,,7,1,,,pitch_bend,1,127,127,E0 7F 7F\n",
    },
    Worked {
        line: b"7 port 1 F0 7E 7F 09 01 F7",
        json: b"{\"entry\":\"delivery\",\"client\":129,\"moment\":7,\"port\":1,\
            \"bytes\":\"F0 7E 7F 09 01 F7\",\"kind\":\"exclusive\"}\n",
        csv: b"delivery,129,,7,1,,,exclusive,,,,F0 7E 7F 09 01 F7\n",
    },
    // Exclusive messages of two and three bytes have no data columns either.
    Worked {
        line: b"7 port 1 F0 F7",
        json: b"{\"entry\":\"delivery\",\"client\":129,\"moment\":7,\"port\":1,\"bytes\":\"F0 F7\",\
            \"kind\":\"exclusive\"}\n",
        csv: b"delivery,129,,7,1,,,exclusive,,,,F0 F7\n",
    },
    Worked {
        line: b"7 port 1 F0 7D F7",
        json: b"{\"entry\":\"delivery\",\"client\":129,\"moment\":7,\"port\":1,\"bytes\":\"F0 7D F7\",\
            \"kind\":\"exclusive\"}\n",
        csv: b"delivery,129,,7,1,,,exclusive,,,,F0 7D F7\n",
    },
    Worked {
        line: b"7 port 1 F1 35",
        json: b"{\"entry\":\"delivery\",\"client\":129,\"moment\":7,\"port\":1,\"bytes\":\"F1 35\",\
            \"kind\":\"quarter_frame\",\"data\":53}\n",
        csv: b"delivery,129,,7,1,,,quarter_frame,,53,,F1 35\n",
    },
    Worked {
        line: b"7 port 1 F2 01 02",
        json: b"{\"entry\":\"delivery\",\"client\":129,\"moment\":7,\"port\":1,\"bytes\":\"F2 01 02\",\
            \"kind\":\"song_position\",\"position\":257}\n",
        csv: b"delivery,129,,7,1,,,song_position,,1,2,F2 01 02\n",
    },
    Worked {
        line: b"7 port 1 F3 09",
        json: b"{\"entry\":\"delivery\",\"client\":129,\"moment\":7,\"port\":1,\"bytes\":\"F3 09\",\
            \"kind\":\"song_select\",\"song\":9}\n",
        csv: b"delivery,129,,7,1,,,song_select,,9,,F3 09\n",
    },
    // What is no entry of a log: a word too many, a small hexadecimal digit, a zero in front, no byte.
    Worked {
        line: b"5 line 3 ok 2 3",
        json: b"{\"entry\":\"list\",\"text\":\"5 line 3 ok 2 3\"}\n",
        csv: b"list,,,,,,5 line 3 ok 2 3,,,,,\n",
    },
    Worked {
        line: b"5 port 0 9a 3C 40",
        json: b"{\"entry\":\"list\",\"text\":\"5 port 0 9a 3C 40\"}\n",
        csv: b"list,,,,,,5 port 0 9a 3C 40,,,,,\n",
    },
    Worked {
        line: b"05 port 0 F8",
        json: b"{\"entry\":\"list\",\"text\":\"05 port 0 F8\"}\n",
        csv: b"list,,,,,,05 port 0 F8,,,,,\n",
    },
    Worked {
        line: b"5 port 0",
        json: b"{\"entry\":\"list\",\"text\":\"5 port 0\"}\n",
        csv: b"list,,,,,,5 port 0,,,,,\n",
    },
];

/// The statuses of messages of one byte, and the names of their kinds.
const ONE_BYTE: &[(&[u8], &[u8])] = &[
    (b"F6", b"tune_request"),
    (b"F8", b"clock"),
    (b"FA", b"start"),
    (b"FB", b"continue"),
    (b"FC", b"stop"),
    (b"FE", b"active_sensing"),
    (b"FF", b"reset"),
];

fn joined(alloc: Global, pieces: &[&[u8]]) -> Result<Vec<u8>, OutOfMemory> {
    let mut text = Vec::new(alloc);
    for piece in pieces {
        text.extend_from_slice(piece)?;
    }
    Ok(text)
}

fn in_form(
    rt: &impl Abort,
    alloc: Global,
    form: LogForm,
    log: &[u8],
) -> Result<Vec<u8>, OutOfMemory> {
    let Some(client) = ClientId::new(129) else {
        rt.abort()
    };
    let mut text = Vec::new(alloc);
    push_log(&mut text, form, client, log)?;
    Ok(text)
}

#[test]
fn writes_each_line(rt: HostRuntime) -> Result<(), Fail> {
    for worked in TABLE {
        let json = in_form(&rt, rt.alloc(), LogForm::Json, worked.line)?;
        let csv = in_form(&rt, rt.alloc(), LogForm::Csv, worked.line)?;
        assert!(rt; json.as_slice() == worked.json);
        assert!(rt; csv.as_slice() == worked.csv);
    }
    Ok(())
}

#[test]
fn writes_messages_of_one_byte(rt: HostRuntime) -> Result<(), Fail> {
    for (bytes, name) in ONE_BYTE {
        let line = joined(rt.alloc(), &[b"0 port 0 ", bytes])?;
        let json = in_form(&rt, rt.alloc(), LogForm::Json, &line)?;
        let csv = in_form(&rt, rt.alloc(), LogForm::Csv, &line)?;
        let object = joined(
            rt.alloc(),
            &[
                b"{\"entry\":\"delivery\",\"client\":129,\"moment\":0,\"port\":0,\"bytes\":\"",
                bytes,
                b"\",\"kind\":\"",
                name,
                b"\"}\n",
            ],
        )?;
        let row = joined(
            rt.alloc(),
            &[b"delivery,129,,0,0,,,", name, b",,,,", bytes, b"\n"],
        )?;
        assert!(rt; json.as_slice() == object.as_slice());
        assert!(rt; csv.as_slice() == row.as_slice());
    }
    Ok(())
}

#[test]
fn writes_all_lines(rt: HostRuntime) -> Result<(), Fail> {
    let log = b"skip 2 late\n0 line 1 ok\n\n0 port 3 F8";
    let text = in_form(&rt, rt.alloc(), LogForm::Text, log)?;
    let json = in_form(&rt, rt.alloc(), LogForm::Json, log)?;
    let csv = in_form(&rt, rt.alloc(), LogForm::Csv, log)?;
    assert!(rt; text.as_slice() == log.as_slice());
    assert!(rt;
        json.as_slice()
            == b"{\"entry\":\"skip\",\"client\":129,\"line\":2,\"reason\":\"late\"}\n\
        {\"entry\":\"reply\",\"client\":129,\"moment\":0,\"line\":1,\"outcome\":\"ok\"}\n\
        {\"entry\":\"list\",\"text\":\"\"}\n\
        {\"entry\":\"delivery\",\"client\":129,\"moment\":0,\"port\":3,\"bytes\":\"F8\",\"kind\":\"clock\"}\n"
                .as_slice()
    );
    assert!(rt;
        csv.as_slice()
            == b"skip,129,2,,,,late,,,,,\nreply,129,1,0,,ok,,,,,,\nlist,,,,,,,,,,,\n\
        delivery,129,,0,3,,,clock,,,,F8\n"
                .as_slice()
    );
    Ok(())
}

#[test]
fn writes_listings(rt: HostRuntime) -> Result<(), Fail> {
    let listing =
        b"client 128 ke\"ys\\ in 100 out 100\nport 128:p0 a,b 33\nqueue 128:q0 \x01\x1F\r\n";
    let mut text = Vec::new(rt.alloc());
    push_listing(&mut text, LogForm::Text, listing)?;
    let mut json = Vec::new(rt.alloc());
    push_head(&mut json, LogForm::Json)?;
    push_listing(&mut json, LogForm::Json, listing)?;
    let mut csv = Vec::new(rt.alloc());
    push_head(&mut csv, LogForm::Csv)?;
    push_listing(&mut csv, LogForm::Csv, listing)?;
    assert!(rt; text.as_slice() == listing.as_slice());
    assert!(rt;
        json.as_slice()
            == b"{\"entry\":\"list\",\"text\":\"client 128 ke\\\"ys\\\\ in 100 out 100\"}\n\
        {\"entry\":\"list\",\"text\":\"port 128:p0 a,b 33\"}\n\
        {\"entry\":\"list\",\"text\":\"queue 128:q0 \\u0001\\u001f\\u000d\"}\n"
                .as_slice()
    );
    assert!(rt;
        csv.as_slice()
            == b"entry,client,line,moment,port,outcome,detail,kind,channel,data1,data2,bytes\n\
        list,,,,,,\"client 128 ke\"\"ys\\ in 100 out 100\",,,,,\n\
        list,,,,,,\"port 128:p0 a,b 33\",,,,,\n\
        list,,,,,,\"queue 128:q0 \x01\x1F\r\",,,,,\n"
                .as_slice()
    );
    Ok(())
}
