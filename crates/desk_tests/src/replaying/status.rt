//! Replays of categories, emergencies, and the sources of vertical rates. JSON has them, and the text does not.

use super::{Known, give_tables};
use station_replay::Format;

const JSON: &[Known] = &[
    (
        "the category A3",
        "*8D4840D6232CC371C32CE0CC1B88;\n?",
        concat!(
            r#"{"now":0.000,"messages":1,"aircraft":["#,
            r#"{"hex":"4840d6","flight":"KLM1023","category":"A3","rssi":-49.5,"seen":0.000}"#,
            "]}\n",
        ),
    ),
    (
        "the category B1",
        "*8D4840D6192CC371C32CE020DC9F;\n?",
        concat!(
            r#"{"now":0.000,"messages":1,"aircraft":["#,
            r#"{"hex":"4840d6","flight":"KLM1023","category":"B1","rssi":-49.5,"seen":0.000}"#,
            "]}\n",
        ),
    ),
    (
        "the category C7",
        "*8D4840D6172CC371C32CE00A2D23;\n?",
        concat!(
            r#"{"now":0.000,"messages":1,"aircraft":["#,
            r#"{"hex":"4840d6","flight":"KLM1023","category":"C7","rssi":-49.5,"seen":0.000}"#,
            "]}\n",
        ),
    ),
    (
        "the category D2",
        "*8D4840D60A2CC371C32CE083B4AC;\n?",
        concat!(
            r#"{"now":0.000,"messages":1,"aircraft":["#,
            r#"{"hex":"4840d6","flight":"KLM1023","category":"D2","rssi":-49.5,"seen":0.000}"#,
            "]}\n",
        ),
    ),
    (
        "a category that the next identification doesn't give",
        "*8D4840D6232CC371C32CE0CC1B88;\n*8D4840D6202CC371C32CE0576098;\n?\n+60001\n*8D4840D6202CC371C32CE0576098;\n?",
        concat!(
            r#"{"now":0.000,"messages":2,"aircraft":["#,
            r#"{"hex":"4840d6","flight":"KLM1023","category":"A3","rssi":-49.5,"seen":0.000}"#,
            "]}\n",
            r#"{"now":60.001,"messages":4,"aircraft":["#,
            r#"{"hex":"4840d6","flight":"KLM1023","rssi":-49.5,"seen":0.000}"#,
            "]}\n",
        ),
    ),
    (
        "the emergency general, and then none",
        "*8DA2C1B6E12000000000004B5048;\n?\n*8DA2C1B6E1000000000000EF2691;\n?",
        concat!(
            r#"{"now":0.000,"messages":1,"aircraft":["#,
            r#"{"hex":"a2c1b6","emergency":"general","rssi":-49.5,"seen":0.000}"#,
            "]}\n",
            r#"{"now":0.000,"messages":2,"aircraft":["#,
            r#"{"hex":"a2c1b6","rssi":-49.5,"seen":0.000}"#,
            "]}\n",
        ),
    ),
    (
        "the emergency lifeguard, and then none",
        "*8DA2C1B6E1400000000000583F2A;\n?\n*8DA2C1B6E1000000000000EF2691;\n?",
        concat!(
            r#"{"now":0.000,"messages":1,"aircraft":["#,
            r#"{"hex":"a2c1b6","emergency":"lifeguard","rssi":-49.5,"seen":0.000}"#,
            "]}\n",
            r#"{"now":0.000,"messages":2,"aircraft":["#,
            r#"{"hex":"a2c1b6","rssi":-49.5,"seen":0.000}"#,
            "]}\n",
        ),
    ),
    (
        "the emergency minfuel, and then none",
        "*8DA2C1B6E1600000000000FC49F3;\n?\n*8DA2C1B6E1000000000000EF2691;\n?",
        concat!(
            r#"{"now":0.000,"messages":1,"aircraft":["#,
            r#"{"hex":"a2c1b6","emergency":"minfuel","rssi":-49.5,"seen":0.000}"#,
            "]}\n",
            r#"{"now":0.000,"messages":2,"aircraft":["#,
            r#"{"hex":"a2c1b6","rssi":-49.5,"seen":0.000}"#,
            "]}\n",
        ),
    ),
    (
        "the emergency nordo, and then none",
        "*8DA2C1B6E18000000000007EE1EE;\n?\n*8DA2C1B6E1000000000000EF2691;\n?",
        concat!(
            r#"{"now":0.000,"messages":1,"aircraft":["#,
            r#"{"hex":"a2c1b6","emergency":"nordo","rssi":-49.5,"seen":0.000}"#,
            "]}\n",
            r#"{"now":0.000,"messages":2,"aircraft":["#,
            r#"{"hex":"a2c1b6","rssi":-49.5,"seen":0.000}"#,
            "]}\n",
        ),
    ),
    (
        "the emergency unlawful, and then none",
        "*8DA2C1B6E1A00000000000DA9737;\n?\n*8DA2C1B6E1000000000000EF2691;\n?",
        concat!(
            r#"{"now":0.000,"messages":1,"aircraft":["#,
            r#"{"hex":"a2c1b6","emergency":"unlawful","rssi":-49.5,"seen":0.000}"#,
            "]}\n",
            r#"{"now":0.000,"messages":2,"aircraft":["#,
            r#"{"hex":"a2c1b6","rssi":-49.5,"seen":0.000}"#,
            "]}\n",
        ),
    ),
    (
        "the emergency downed, and then none",
        "*8DA2C1B6E1C00000000000C9F855;\n?\n*8DA2C1B6E1000000000000EF2691;\n?",
        concat!(
            r#"{"now":0.000,"messages":1,"aircraft":["#,
            r#"{"hex":"a2c1b6","emergency":"downed","rssi":-49.5,"seen":0.000}"#,
            "]}\n",
            r#"{"now":0.000,"messages":2,"aircraft":["#,
            r#"{"hex":"a2c1b6","rssi":-49.5,"seen":0.000}"#,
            "]}\n",
        ),
    ),
    (
        "an emergency before messages that say nothing of one",
        "*8DA2C1B6E12000000000004B5048;\n*8DA2C1B6E1E000000000006D8E8C;\n*8DA2C1B6E2200000000000D02B58;\n?\n+60001\n*8DA2C1B6E1E000000000006D8E8C;\n?",
        concat!(
            r#"{"now":0.000,"messages":3,"aircraft":["#,
            r#"{"hex":"a2c1b6","emergency":"general","rssi":-49.5,"seen":0.000}"#,
            "]}\n",
            r#"{"now":60.001,"messages":5,"aircraft":["#,
            r#"{"hex":"a2c1b6","rssi":-49.5,"seen":0.000}"#,
            "]}\n",
        ),
    ),
    (
        "a rate from GNSS, a barometric one, and then none",
        "*8D485020994409940838175B284F;\n?\n*8D48502099440994183817866C5F;\n?\n*8D48502099440994080017F5D846;\n?",
        concat!(
            r#"{"now":0.000,"messages":1,"aircraft":["#,
            r#"{"hex":"485020","gs":159.2,"speed":159,"track":183,"geom_rate":-832,"vert_rate":-832,"rssi":-49.5,"seen":0.000}"#,
            "]}\n",
            r#"{"now":0.000,"messages":2,"aircraft":["#,
            r#"{"hex":"485020","gs":159.2,"speed":159,"track":183,"baro_rate":-832,"vert_rate":-832,"rssi":-49.5,"seen":0.000}"#,
            "]}\n",
            r#"{"now":0.000,"messages":3,"aircraft":["#,
            r#"{"hex":"485020","gs":159.2,"speed":159,"track":183,"baro_rate":-832,"vert_rate":-832,"rssi":-49.5,"seen":0.000}"#,
            "]}\n",
        ),
    ),
    (
        "a barometric rate, and then one from GNSS",
        "*8D48502099440994183817866C5F;\n*8D485020994409940838175B284F;\n?",
        concat!(
            r#"{"now":0.000,"messages":2,"aircraft":["#,
            r#"{"hex":"485020","gs":159.2,"speed":159,"track":183,"geom_rate":-832,"vert_rate":-832,"rssi":-49.5,"seen":0.000}"#,
            "]}\n",
        ),
    ),
];

#[test]
fn categories_and_emergencies_have_their_members(rt: HostRuntime) {
    give_tables(&rt, rt.alloc(), JSON, Some(Format::Json { origin: 0 }));
}
